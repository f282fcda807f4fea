//! What is noted of a transaction.
ghost use Rattle.std.specs.Prelude.{◌≡◌};
ghost use Rattle.ent_reasons.specs.Noted.{changed, no_run};

use crate::last_status::LastStatus;
use ent_value::Ticks;

/// What is noted of a transaction.
#[derive(Debug, Drop)]
pub struct Note {
    /// In how many runs it was.
    pub runs: Ticks,
    /// How many statements it has passed in its last run.
    pub passed: Ticks,
    /// What it was told last in that run.
    pub last_status: LastStatus,
}

/// What changes in a note.
#[derive(Debug, Drop)]
pub enum Change {
    /// A run starts.
    Starts,
    /// A statement is passed.
    Passes,
    /// It is told this, the last so far.
    Stands(LastStatus),
}

impl Note {
    /// The note of a transaction that was in no run.
    pub(crate) fn new() -> Self
        ensures { result ≡ no_run }
    {
        Note {
            runs: Ticks::new(),
            passed: Ticks::new(),
            last_status: LastStatus::Free,
        }
    }

    pub(crate) fn change(&mut self, change: &Change)
        ensures { self.new ≡ changed change.now self.old }
    {
        match change {
            Change::Starts => {
                self.runs.add();
                self.passed = Ticks::new();
                self.last_status = LastStatus::Free;
            }
            Change::Passes => {
                self.passed.add();
                self.last_status = LastStatus::Free;
            }
            Change::Stands(last_status) => self.last_status = last_status.copy(),
        }
    }
}
