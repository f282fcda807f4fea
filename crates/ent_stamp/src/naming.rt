//! Which ledgers a manager counts by, and by which log it knows its jobs again.
ghost use Rattle.std.specs.Prelude.{ℕ};
ghost use Rattle.logbook.specs.Pages.{Book};

use crate::stamp::BlankLog;
use std::marker::{Brand, PhantomData};
use std::sync::ledger::{Blank, Ledger};

/// A ledger with a part for each session of a manager, `seats` of them; and the log of the manager's lent jobs, `book`,
/// which is that of the ledger that counts scripts.
pub trait Seats: Ledger {
    ghost seats: { ℕ };

    ghost book: { Book };
}

impl Seats for Brand {
    ghost seats = { 1 };

    ghost book = { record { number = 0; log_name = 0; cells_name = 0 } };
}

/// The two ledgers of one manager, which name it: one counts scripts, one journal entries. A session of another manager
/// is of another type.
pub trait Naming {
    type Scripts: Seats + Send + Sync;

    type Entries: Seats + Send + Sync;
}

/// The naming by these two ledgers.
#[derive(Drop)]
pub struct Both<S: Seats, E: Seats> {
    ledgers: PhantomData<(S, E)>,
}

impl<S: Seats + Send + Sync, E: Seats + Send + Sync> Naming for Both<S, E> {
    type Scripts = S;

    type Entries = E;
}

/// Two new ledgers and a new log of jobs, for a manager to be opened. The ledgers take no bytes.
#[derive(Drop)]
pub struct Blanks {
    pub scripts: Blank,
    pub entries: Blank,
    pub jobs: BlankLog,
}
