//! The undo log: tables as they stood before transactions changed them.
//!
//! The log keeps, oldest first, who changed which table and how it stood before. A caller may rely on it that a
//! rollback puts each table of the transactions back as it was noted first and leaves every other one as it is, that
//! `take_back` undoes the newest change alone, that `forget` and a rollback leave the changes of others noted, and that
//! only `note` takes memory.
#![tactic(auto)]

mod laws;
mod undo_log;

pub use laws::{log_tells_of_writes, rollback_goes_newest_first};
pub use undo_log::UndoLog;
