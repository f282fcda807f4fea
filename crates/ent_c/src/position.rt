//! Where a transaction stands, in numbers.
ghost use Rattle.std.specs.Prelude.{◌≡◌};
ghost use Rattle.ent_driver.specs.Passed.{standing_seen};
ghost use Rattle.ent_c.specs.Position.{fate_position, no_position, position_of};

use ent_driver::Standing;
use ent_semantics::{Failure, Fate};

/// Where a transaction stands. C calls it `struct entangle_position`, and names the kinds.
#[repr(C)]
#[derive(Clone, Copy, Debug)]
pub struct Position {
    /// In how many runs it was, where it has a fate or waits for a run; else 0.
    pub runs: u64,
    /// The number of its commit, from 1; 0 where it hasn't committed.
    pub number: u64,
    /// 1 dormant, 2 ready, 3 out, 4 posted, 5 prepared, 6 committed, 7 gave up, 8 rolled back, 9 failed.
    pub kind: u32,
    /// Why it failed: 1 or 2, as F1 or F2; else 0.
    pub failure: u32,
}

/// A position of this kind, with nothing beside it.
fn of_kind(kind: u32, runs: u64) -> Position
    ensures { result ≡ no_position kind runs }
{
    Position {
        runs,
        number: 0,
        kind,
        failure: 0,
    }
}

fn fate_position(fate: Fate) -> Position
    ensures { result ≡ fate_position fate }
{
    match fate {
        Fate::Committed { number, runs } => Position {
            number,
            ..of_kind(6, runs)
        },
        Fate::GaveUp { runs } => of_kind(7, runs),
        Fate::RolledBack { runs } => of_kind(8, runs),
        Fate::Failed { failure, runs } => Position {
            failure: match failure {
                Failure::Overflow => 1,
                Failure::TableFull => 2,
            },
            ..of_kind(9, runs)
        },
    }
}

impl Position {
    /// Where a transaction stands.
    pub(crate) fn of(standing: Standing) -> Self
        ensures { result ≡ position_of (standing_seen standing) }
    {
        match standing {
            Standing::Dormant(runs) => of_kind(1, runs),
            Standing::Ready(_) => of_kind(2, 0),
            Standing::Out => of_kind(3, 0),
            Standing::Posted => of_kind(4, 0),
            Standing::Prepared => of_kind(5, 0),
            Standing::Finished(fate) => fate_position(fate),
        }
    }
}
