//! Evaluation of jobs.
//!
//! A [`Done`], which [`evaluate`] makes of a job, keeps that its outcome is the meaning of its own work over its own
//! tables.
#![tactic(auto)]

mod done;
mod joint;
mod law;
mod outcome;

pub use done::{Done, NotDone, evaluate};
pub use ent_job::{Job, Single, Work};
pub use law::{components_stand_alone, lent_tables_stand};
pub use outcome::JobOutcome;
