//! How many runs were made, and how many groups committed.
ghost use Rattle.std.specs.Prelude.{◌≤◌};

use ent_eval::Done;
use ent_reasons::{LastStatus, Notes};
use ent_sched::{Core, MadeEvent, Reply, Watcher};
use std::fmt;

/// So few runs show nothing.
const LEAST_RUNS: u64 = 3;

/// The most runs that a script can ask for.
const MOST_RUNS: u64 = 1_000;

/// Counts runs and the groups that commit in them.
#[derive(Clone, Copy)]
pub(crate) struct Tally {
    runs: u64,
    groups: u64,
    /// Whether a group committed in the last run.
    is_fruitful: bool,
}

impl Tally {
    pub(crate) fn new() -> Self {
        Tally {
            runs: 0,
            groups: 0,
            is_fruitful: false,
        }
    }

    /// What is said where about one group committed in each run, and in the last one too, and these notes tell of
    /// transactions that others kept from committing.
    pub(crate) fn advice(self, notes: &Notes) -> Option<Advice> {
        let Tally {
            runs,
            groups,
            is_fruitful,
        } = self;
        let hindered = hindered_in(notes);
        let is_about_one = runs <= groups.saturating_mul(2) && groups <= runs.saturating_mul(2);
        if runs < LEAST_RUNS || !is_fruitful || !is_about_one || hindered == 0 {
            return None;
        }
        Some(Advice {
            runs,
            groups,
            wanted: runs.saturating_add(hindered).min(MOST_RUNS),
        })
    }
}

/// How many transactions gave up that another one blocked or kept from being posted, or that broke a deadlock.
fn hindered_in(notes: &Notes) -> u64 {
    let mut hindered = 0u64;
    for note in notes.by_number() {
        if is_hindered(&note.last_status) {
            hindered = hindered.saturating_add(1);
        }
    }
    hindered
}

fn is_hindered(status: &LastStatus) -> bool {
    match status {
        LastStatus::Blocked(_) | LastStatus::HeldBack { .. } | LastStatus::Broken(_) => true,
        _ => false,
    }
}

/// That more runs would help.
#[derive(Clone, Copy)]
pub(crate) struct Advice {
    runs: u64,
    groups: u64,
    wanted: u64,
}

impl fmt::Display for Advice {
    fn fmt<W: fmt::Write>(&self, f: &mut fmt::Formatter<W>) -> fmt::Result {
        let Advice {
            runs,
            groups,
            wanted,
        } = *self;
        write!(
            f,
            "in {runs} runs {groups} groups committed, about one in each, and in the last one too: \
             more runs would help, as BEGIN TRANSACTION WITHIN {wanted} RUNS"
        )
    }
}

impl Watcher for Tally {
    type Mark = ();

    // What is counted isn't said here.
    ghost hears = { λ old heard new. Unit {0} };

    ghost marks = { λ mark done. Unit {0} };

    fn listens(&self) -> bool {
        true
    }

    fn mark(&self, _done: &Done) {}

    fn tell(&mut self, _told: MadeEvent<()>, reply: &Reply, _core: &Core)
        ensures runs { self.old.runs ≤ self.new.runs }
        ensures groups { self.old.groups ≤ self.new.groups }
    {
        match reply {
            Reply::Started(_) => {
                self.runs = self.runs.saturating_add(1);
                self.is_fruitful = false;
            }
            Reply::Committed { .. } => {
                self.groups = self.groups.saturating_add(1);
                self.is_fruitful = true;
            }
            _ => {}
        }
    }
}
