//! The report of a book: what became of its scripts, as text.
//!
//! [`write_book`] writes the exact text of the report of a version, all of it, by [`write_report`] or
//! [`write_report_2`]; if the writer fails, what it took is a beginning of the report. [`written_variables`] gives the
//! written variables of an entangled statement, in the order of the definition.
#![tactic(auto)]

mod answer;
mod grounding;
mod joint;
mod opening;
mod piece;
mod report;
mod script;
mod table;
mod transaction;
mod variables;
mod version;
mod write;
mod written;

pub use answer::append_answers;
pub use ent_print::WriteFault;
pub use piece::append_number;
pub use script::line_count;
pub use table::{NamedTable, append_table, table_named};
pub use transaction::{append_after, append_fate};
pub use version::{ReportVersion, write_book};
pub use write::{write_report, write_report_2};
pub use written::written_variables;
