//! A whole run by workers, each in a thread of its own: from the bytes of an input to the bytes of its report.
//!
//! [`run_workers`] promises what [`ent_engine::run`] does, where it returns: the report is the text of a finished, legal
//! book of the input. Which order of commits it shows may differ from one call to the next.
#![tactic(auto)]

mod threads;
mod workers;

pub use ent_serve::MOST_SESSIONS;
pub use workers::run_workers;
