//! Who waits for whom: holders of a table make a member wait.
ghost use Rattle.std.specs.Prelude.{◌≡◌, ◌↔◌, IsTrue};
ghost use Rattle.std.specs.List.{list_any};
ghost use Rattle.ent_run.specs.Passing.{passes};
ghost use Rattle.ent_run.specs.Waits.{IsMadeToWait, is_awaited_over, makes_wait};

use crate::asker::Asker;
use ent_group::{Groups, Tx};
use ent_lock::{Holder, LockTable, Mode};
use ent_members::{RunMember, Use};

/// Whether a member of a group waits for another, with one of a number blocking it: for that one, where it is of the
/// group, else for each of that one's group.
fn is_awaited_over(groups: &Groups, group: Tx, other: &RunMember, holder: Tx) -> bool
    ensures { result ≡ is_awaited_over groups.now group other.now holder }
{
    match groups.group_of(holder) {
        Some(own) => {
            if own == group {
                holder == other.tx()
            } else {
                other.group() == own
            }
        }
        None => false,
    }
}

/// Whether some holder of a table is in conflict with a mode, isn't passed, and makes a member of a group wait for
/// another.
fn some_make_wait(
    holders: &[Holder],
    mode: Mode,
    asker: &Asker,
    groups: &Groups,
    group: Tx,
    other: &RunMember,
) -> bool
    ensures { result ≡ list_any (makes_wait mode asker.now groups.now group other.now) holders.now }
{
    holders.iter().any(|held| {
        held.mode.in_conflict(mode)
            && !asker.passes(held.holder, &mut 0)
            && is_awaited_over(groups, group, other, held.holder)
    })
}

/// Whether some transaction that isn't passed holds a use in conflict with one that is asked for, and makes a member of
/// a group wait for another.
pub(crate) fn awaits(
    locks: &LockTable<usize>,
    asked: &[Use],
    asker: &Asker,
    groups: &Groups,
    group: Tx,
    other: &RunMember,
) -> bool
    ensures { IsTrue result ↔ IsMadeToWait locks.now groups.now asked.now (passes asker.now) group other.now }
{
    let Some((first, rest)) = asked.split_first() else {
        return false;
    };
    let holders = locks.holders(&first.table());
    some_make_wait(holders, first.mode(), asker, groups, group, other)
        || awaits(locks, rest, asker, groups, group, other)
}
