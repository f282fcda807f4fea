//! Stamps of lent jobs: a result with a stamp of a manager is of the job that was lent with it, rows and all.
//!
//! A caller may rely on the types [`StampedJob`] and [`StampedDone`]: their stamps are of their jobs, whoever carries
//! them, on whichever thread; and what has another manager's stamp is of another type. [`LentStamps`] keeps the stamps
//! of the jobs that a core lends, in order, so that the place of a result's job is found without a look at a row.
//! Nothing here takes a lock or starts a thread.
#![tactic(auto)]

mod lent;
mod naming;
mod stamp;
mod stamped;

pub use lent::LentStamps;
pub use naming::{Blanks, Both, Naming, Seats};
pub use stamp::{BlankLog, Stamp};
pub use stamped::{StampedDone, StampedJob};
