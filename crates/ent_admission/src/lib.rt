//! Admission: those who wait come into a core in batches, each together with those whom its script needs.
//!
//! An [`Admission`] is a waiting list before an epoch. A script waits outside the core. A batch is made of scripts that
//! wait, none of which needs anybody else; each is submitted as it was put, but for one run, and once all are in, that
//! run is made to its end. Who has no fate of its own then waits again. What committed, and who ended otherwise, is
//! told in a feed of groups. A caller may rely on it that nothing else is submitted, that a ticket ends at most once
//! and as the core said of its transaction, that the groups tell each commit once and what it changed, and that a
//! refused call changes nothing. Which batches are made, and when, is the caller's.
#![tactic(auto)]

mod admission;
mod batch;
mod entering;
mod law;
mod planning;
mod settling;
mod telling;
mod turning;
mod waiters;

pub use admission::Admission;
pub use batch::Again;
pub use ent_epoch::{FinishedBook, NotTurned};
pub use law::{acts_go_on, feeds_tell_all_at_rest, feeds_tell_what_committed};
pub use planning::NotPlanned;
