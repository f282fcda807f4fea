//! What a report of version 2 tells, what breaks its rules, and how its lines are read.
//!
//! A report is text that anyone may have written; a [`History`] is what stands in it, also where that is wrong. The
//! definitions say its exact text, section by section: which line can stand below those above it, and where a text can
//! end.
//!
//! The rules over a history speak of scripts that run alone in the order of their commits, and of the groundings that
//! are told; nothing there is a lock, a group or a search. None is broken exactly if the book that is told is legal.
//!
//! A reader of a line reads just the lines of its sort, and what they say. [`read_script`] gives a script exactly if
//! the lines are its text, as it is printed, and it can stand in the report; no other script has this text then.
//! [`begins_script`] says whether lines begin such a script.
#![tactic(auto)]

mod begins;
mod binding;
mod column;
mod count;
mod fact;
mod fate;
mod finding;
mod history;
mod laws;
mod line_laws;
mod only;
mod place;
mod reader;
mod rule_law;
mod script_laws;
mod script_line;
mod section_laws;
mod unplaced;
mod word;

pub use begins::begins_script;
pub use binding::member;
pub use column::opening;
pub use count::{placed, set, table};
pub use fact::heads;
pub use fate::transaction;
pub use finding::{Finding, Rule, Thing};
pub use history::{History, Shown, Told, ToldJoint, ToldMember};
pub use laws::reports_tell_of_books;
pub use line_laws::{
    counts_are_read_as_written, members_are_read_as_written, transactions_are_read_as_written,
};
pub use place::joint;
pub use reader::read_script;
pub use rule_law::{commits_are_counted, nothing_is_found_where_books_are_legal};
pub use script_laws::scripts_break_off_in_their_lines;
pub use script_line::script;
pub use section_laws::{
    heads_are_read_as_written, joints_are_read_as_written, names_are_read_as_written,
    openings_are_read_as_written, scripts_are_read_as_written,
};
pub use word::{first_byte, name};
