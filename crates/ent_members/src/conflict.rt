//! Uses that are in conflict.
ghost use Rattle.std.specs.Prelude.{◌≡◌, ◌↔◌, true, Contains, IsTrue, MatchOption};
ghost use Rattle.ent_lock.specs.Mode.{in_conflict};
ghost use Rattle.ent_members.specs.Conflict.{IsConflict, NoConflict, IsHeldAgainst, NoneHeldAgainst};
ghost use Rattle.ent_members.specs.InRun.{AreByNumber, uses_of};

use crate::table_use::Use;
use ent_group::Tx;
use ent_lock::{Holder, LockTable, Mode};

/// A table for which one asks in a mode that is in conflict with the one in which another holds it.
#[derive(Clone, Copy, Debug, PartialEq, Eq)]
pub struct Conflict {
    /// The table's number, counted from 0.
    pub table: usize,
    pub asked: Mode,
    pub held: Mode,
}

/// Whether a transaction is among the holders of a table in a mode that is in conflict with one that is asked for.
fn is_held_against(holders: &[Holder], tx: Tx, held: Mode, asked: Mode) -> bool
    ensures { IsTrue result ↔ IsHeldAgainst holders.now tx asked held }
{
    asked.in_conflict(held)
        && holders.contains(&Holder {
            holder: tx,
            mode: held,
        })
}

/// The mode in which a transaction holds a table in conflict with one that is asked for, the shared one first.
fn held_against(holders: &[Holder], tx: Tx, asked: Mode) -> Option<Mode>
    ensures { MatchOption result (NoneHeldAgainst holders.now tx asked) (IsHeldAgainst holders.now tx asked) }
{
    if is_held_against(holders, tx, Mode::Shared, asked) {
        return Some(Mode::Shared);
    }
    if is_held_against(holders, tx, Mode::Exclusive, asked) {
        return Some(Mode::Exclusive);
    }
    None
}

/// The first of the uses that are asked for which is in conflict with one that a transaction holds, with the first such
/// that it holds. It takes no memory.
pub(crate) fn first_conflict(locks: &LockTable<usize>, tx: Tx, asked: &[Use]) -> Option<Conflict>
    requires { AreByNumber locks.now }
    ensures { MatchOption result (NoConflict asked.now (uses_of locks.now tx))
        (IsConflict asked.now (uses_of locks.now tx)) }
{
    let (first, rest) = asked.split_first()?;
    let holders = locks.holders(&first.table());
    match held_against(holders, tx, first.mode()) {
        Some(held) => Some(Conflict {
            table: first.table(),
            asked: first.mode(),
            held,
        }),
        None => first_conflict(locks, tx, rest),
    }
}
