//! Whether somebody may stand in a cycle.
ghost use Rattle.std.specs.Prelude.{◌≡◌, ◌≢◌, ℕ, List, ◌<◌, ◌≤◌, length, true, false, AllPairs, All};
ghost use Rattle.ent_group.specs.Cycle.{IsOnCycle};
ghost use Rattle.ent_group.specs.Marks.{IsMarked, has_mark};
ghost use Rattle.ent_waits.specs.Rows.{IsMarkedPair};

use crate::marks::share_mark;
use ent_group::{Row, with_mark};

/// The places at which some row has a mark: of those for whom somebody waits.
fn awaited(rows: &[Row]) -> Row
    ensures { (i j : ℕ) → i < length rows.now → IsMarked rows.now i j → has_mark result j ≡ true }
{
    let mut awaited = 0;
    for row in rows {
        awaited |= *row;
    }
    awaited
}

/// The places of those who are stuck whose rows have a mark at one who is stuck.
fn still_stuck(rows: &[Row], stuck: Row) -> Row
    requires { length rows.now ≤ 64 }
    ensures { (i j : ℕ) → i < length rows.now → has_mark stuck i ≡ true → IsMarked rows.now i j
        → has_mark stuck j ≡ true → has_mark result i ≡ true }
{
    let mut waiting = 0;
    for (place, row) in rows.iter().enumerate() {
        if share_mark(*row, stuck) {
            waiting = with_mark(waiting, place);
        }
    }
    waiting & stuck
}

/// Whether a cycle may stand, where each has a row of those whom it waits for, by their places. There is none where
/// this says no: in none is who isn't awaited, and who waits for nobody, or only for such as are in none.
pub(crate) fn may_have_cycle(rows: &[Row]) -> bool
    requires { length rows.now ≤ 64 }
    ensures { result ≡ false → (numbers : List ℕ) (waits : List (ℕ × ℕ)) → AllPairs (λ x y. x ≢ y) numbers
        → length numbers ≤ length rows.now → All (IsMarkedPair numbers rows.now) waits
        → (x : ℕ) → ¬ IsOnCycle waits x }
{
    let mut stuck = awaited(rows);
    for _round in 0..rows.len() {
        if stuck == 0 {
            return false;
        }
        stuck = still_stuck(rows, stuck);
    }
    stuck != 0
}
