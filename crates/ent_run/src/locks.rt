//! The lock table of a run.
ghost use Rattle.std.specs.Prelude.{◌≡◌, Some, filter, map, IfOk, OnOk, OnErr, if◌then◌else◌};
ghost use Rattle.ent_lock.specs.Holders.{lesser};
ghost use Rattle.ent_lock.specs.Use.{IsLeastIfAny};
ghost use Rattle.ent_protocol.specs.Uses.{least};
ghost use Rattle.ent_members.specs.InRun.{AreByNumber};
ghost use Rattle.ent_run.specs.Locks.{BlocksUses, Locks, lock_of};
ghost use Rattle.ent_run.specs.Passing.{is_in_the_way, passes};

use crate::asker::Asker;
use ent_group::Tx;
use ent_lock::{Holder, LockTable, Mode, lesser};
use ent_members::Use;
use std::alloc::{AllocError, Global};

/// Whether a transaction is less than the least so far.
fn is_below(tx: Tx, least: Option<Tx>) -> bool
    ensures { (if result then Some tx else least) ≡ lesser least (Some tx) }
{
    match least {
        Some(other) => tx < other,
        None => true,
    }
}

/// Whether a holder of a table is in conflict with a mode of using it, and isn't passed.
fn is_in_the_way(held: &Holder, mode: Mode, asker: &Asker, next: &mut usize) -> bool
    ensures { result ≡ is_in_the_way mode asker.now held.now }
{
    held.mode.in_conflict(mode) && !asker.passes(held.holder, next)
}

/// The least of a table's holders that are in conflict with a mode of using it, and aren't passed. One that isn't less
/// than another is not looked at.
fn least_in_the_way(holders: &[Holder], mode: Mode, asker: &Asker) -> Option<Tx>
    ensures { result ≡ least (map (λ held. held.holder) (filter (is_in_the_way mode asker.now) holders.now)) }
{
    let mut least = None;
    let mut next = 0;
    for held in holders {
        if is_below(held.holder, least) && is_in_the_way(held, mode, asker, &mut next) {
            least = Some(held.holder);
        }
    }
    least
}

/// The least transaction that holds a use in conflict with one that is asked for, save those that are passed.
pub(crate) fn least_in_conflict(
    locks: &LockTable<usize>,
    asked: &[Use],
    asker: &Asker,
) -> Option<Tx>
    ensures { IsLeastIfAny (BlocksUses locks.now asked.now (passes asker.now)) result }
{
    let Some((first, rest)) = asked.split_first() else {
        return None;
    };
    let holders = locks.holders(&first.table());
    let own = least_in_the_way(holders, first.mode(), asker);
    if rest.is_empty() {
        return own;
    }
    lesser(own, least_in_conflict(locks, rest, asker))
}

/// Uses as the lock table takes them.
fn locks_of(alloc: Global, asked: &[Use]) -> Result<Vec<(usize, Mode)>, AllocError>
    ensures { IfOk result (λ uses. uses.items ≡ map lock_of asked.now) }
{
    let mut uses = Vec::with_capacity(alloc, asked.len())?;
    for own in asked {
        uses.push((own.table(), own.mode()))?;
    }
    Ok(uses)
}

/// A transaction holds the uses that are asked for in the lock table too. Where memory runs out nothing changes.
pub(crate) fn lock(
    locks: &mut LockTable<usize>,
    alloc: Global,
    tx: Tx,
    asked: &[Use],
) -> Result<(), AllocError>
    ensures ok { OnOk result (Locks tx asked.now locks.old locks.new) }
    ensures by_number { OnOk result (AreByNumber locks.old → AreByNumber locks.new) }
    ensures err { OnErr result (locks.new ≡ locks.old) }
{
    let uses = locks_of(alloc, asked)?;
    locks.grant(tx, uses.as_slice())
}
