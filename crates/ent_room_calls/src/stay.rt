//! How long a script waits, by numbers.
ghost use Rattle.std.specs.Prelude.{IfNone, IfSome};
ghost use Rattle.ent_room_calls.specs.Stay.{IsNoStay, IsStay};

use ent_room::Stay;
use ent_tree::{MOST_RUNS, Runs};

/// For how long a script waits, by its number: -1 as written, 0 until it is withdrawn, else for so many batches.
pub fn stay_numbered(number: i64) -> Option<Stay>
    ensures stay { IfSome result (λ stay. IsStay number stay) }
    ensures none { IfNone result (IsNoStay number) }
{
    if number < -1 || number > MOST_RUNS as i64 {
        return None;
    }
    if number == -1 {
        return Some(Stay::AsWritten);
    }
    if number == 0 {
        return Some(Stay::UntilWithdrawn);
    }
    Some(Stay::Batches(Runs::new(number as u64)))
}
