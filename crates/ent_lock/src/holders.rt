//! The holders of one table.
ghost use Rattle.std.specs.Prelude.{◌≡◌, ◌+◌, ◌<◌, ◌≤◌, ◌^◌, ◌==◌, ◌&&◌, not, filter};
ghost use Rattle.std.specs.List.{list_any};
ghost use Rattle.ent_lock.specs.Holders.{is_holder, is_no_holder, is_not_of, is_conflicting};
ghost use Rattle.ent_lock.specs.Holders.{lesser, least_conflicting};

use crate::mode::Mode;
use ent_group::{Members, Tx};

/// A transaction that holds a table, and how.
#[derive(Clone, Copy, Debug, PartialEq, Eq)]
pub struct Holder {
    pub holder: Tx,
    pub mode: Mode,
}

fn is_holder(holder: &Holder, tx: Tx, mode: Mode) -> bool
    ensures { result ≡ is_holder tx mode holder.now }
{
    holder.holder == tx && holder.mode == mode
}

/// Whether a transaction holds the table in a mode.
pub(crate) fn is_held(holders: &[Holder], tx: Tx, mode: Mode) -> bool
    ensures { result ≡ list_any (is_holder tx mode) holders.now }
{
    holders.iter().any(|h| is_holder(h, tx, mode))
}

/// Takes a transaction's use of the table out.
pub(crate) fn remove_holder(holders: &mut Vec<Holder>, tx: Tx, mode: Mode)
    ensures { holders.new.items ≡ filter (is_no_holder tx mode) holders.old.items }
{
    holders.retain(|h| !is_holder(h, tx, mode));
}

/// Takes out all uses of the table by some transactions.
pub(crate) fn drop_holders(holders: &mut Vec<Holder>, members: &Members)
    ensures { holders.new.items ≡ filter (is_not_of members.now) holders.old.items }
{
    holders.retain(|h| !members.contains(h.holder));
}

fn is_conflicting(holder: &Holder, asker: Tx, mode: Mode, pass: &Members) -> bool
    ensures { result ≡ is_conflicting asker mode pass.now holder.now }
{
    holder.holder != asker && holder.mode.in_conflict(mode) && !pass.contains(holder.holder)
}

/// The same, where those that are to be passed mostly come in their order: a holder that is the next of them isn't
/// looked for among all.
fn is_conflicting_from(
    holder: &Holder,
    asker: Tx,
    mode: Mode,
    pass: &Members,
    next: &mut usize,
) -> bool
    requires room { next.old + 1 < 2 ^ 64 }
    ensures value { result ≡ is_conflicting asker mode pass.now holder.now }
    ensures next { next.new ≤ next.old + 1 }
{
    if pass.get(*next) == Some(holder.holder) {
        *next += 1;
        return false;
    }
    is_conflicting(holder, asker, mode, pass)
}

/// The lesser of two transactions, where there are two.
pub fn lesser(left: Option<Tx>, right: Option<Tx>) -> Option<Tx>
    ensures { result ≡ lesser left right }
{
    match (left, right) {
        (Some(x), Some(y)) => Some(x.min(y)),
        (None, other) => other,
        (other, None) => other,
    }
}

/// The least holder whose use is in conflict with one that is asked for, save the asker and those that are to be
/// passed.
pub(crate) fn least_conflicting(
    holders: &[Holder],
    asker: Tx,
    mode: Mode,
    pass: &Members,
) -> Option<Tx>
    ensures { result ≡ least_conflicting asker mode pass.now holders.now }
{
    let mut least = None;
    let mut next = 0;
    for holder in holders {
        if is_conflicting_from(holder, asker, mode, pass, &mut next) {
            least = lesser(least, Some(holder.holder));
        }
    }
    least
}
