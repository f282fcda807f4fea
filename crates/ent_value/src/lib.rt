//! Values of a database, rows of them, names, lists with limits, and their text.
//!
//! Each type keeps its limits and is seen by contracts as a plain value: a text and a name as their bytes, a row and a
//! list as the list of their parts. A caller may rely on one total order of values, rows and names in which only equal
//! ones tie, on the exact text of values and rows, and on one [`Refusal`] for all calls that take memory and may find a
//! fault.
#![tactic(auto)]

mod limited;
mod limits;
mod name;
mod print;
mod refusal;
mod row;
mod sequence;
mod text;
mod ticks;
mod value;
mod watched;

pub use limited::Limited;
pub use limits::MOST_ROWS;
pub use name::{LONGEST_NAME, Name, is_word, is_word_byte};
pub use print::{print_row, print_value};
pub use refusal::Refusal;
pub use row::{Row, rows_are_ordered};
pub use sequence::Sequence;
pub use text::{LONGEST_TEXT, Text};
pub use ticks::Ticks;
pub use value::{Kind, Value, values_are_ordered};
pub use watched::Watched;
