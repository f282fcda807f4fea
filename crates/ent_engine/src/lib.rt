//! The engine of the program: from the bytes of an input to the bytes of its report.
//!
//! [`run`] writes the report of the input; after a fault of the writer a beginning of it, and after any other fault
//! nothing. The report is the text of a book of the input: all scripts were submitted before any other event, and run
//! concurrently until each had its fate; and the book is legal. [`run_watched`] does the same, and tells a watcher each
//! event of the core with its reply. [`report_of`] gives the report of an input in memory. A caller that runs the
//! scripts in another way uses the parts: [`read_whole`], [`ent_input::read_input`], [`ent_sched::Core::over`] and
//! [`ent_book::write_book`].
#![tactic(auto)]

mod engine;
mod fault;
mod memory;
mod options;
mod reader;
mod runs;
mod version;

pub use engine::{run, run_watched};
pub use fault::{FaultLine, RunFault, status_of};
pub use memory::report_of;
pub use options::{DEFAULT_TRIES, RunOptions};
pub use reader::read_whole;
pub use version::VERSION;
