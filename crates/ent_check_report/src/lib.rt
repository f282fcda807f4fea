//! The check of a report of version 2, by its text alone.
//!
//! A caller may rely on it that the verdict is that of the definitions: `yes` where the text tells of a legal book, and
//! else the first rule that is broken, and the line that it names. Nothing of what made the report is used: no lock, no
//! group, no search.
#![tactic(auto)]

mod check;
mod evidence_told;
mod explain;
mod explanation;
mod fault;
mod first;
mod form_told;
mod joint_told;
mod journal_told;
mod law;
mod page;
mod verdict;

pub use check::{MOST_REPORT_BYTES, check_report, check_text, read_text};
pub use explain::{Explained, explain_text};
pub use explanation::Explanation;
pub use fault::{CheckFault, status_of};
pub use first::first_finding;
pub use law::reports_that_are_right_tell_of_legal_books;
pub use verdict::Verdict;
