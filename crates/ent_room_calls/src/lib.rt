//! What a room is asked for from other languages: values by their bytes, tables by their names in a text, and refusals
//! by numbers.
//!
//! [`BoundValues`] collects values for host variables, and [`GivenRows`] rows of tables. [`RoomFault`] is why a call of
//! a room does nothing, with the numbers that C knows. Tables and books go out in the lines of a report, and the groups
//! of the feed in lines of JSON.
#![tactic(auto)]

mod binding_words;
mod fault;
mod groups;
mod rows;
mod state;
mod stay;
mod text;
mod turning;
mod values;
mod why;

pub use binding_words::binding_line;
pub use fault::RoomFault;
pub use groups::group_lines;
pub use rows::{GivenRows, given_text};
pub use stay::stay_numbered;
pub use text::{book_text, table_text};
pub use turning::turn;
pub use values::{BoundValues, bound_number, bound_text};
pub use why::why_line;
