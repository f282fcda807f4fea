//! Scripts as text, and texts written whole.
//!
//! A caller may rely on the exact text: reserved words in capitals, one spelling for each script, a line a statement.
//! [`write_whole`] writes all of a text; if the writer fails, what it took is a beginning of the text.
#![tactic(auto)]

mod entangled;
mod laws;
mod operand;
mod printer;
mod script;
mod select;
mod spelled;
mod statement;
mod symbol;
mod write;

pub use laws::{places_do_not_show, printed_script_is_read, printed_text_is_read};
pub use script::print_script;
pub use write::{WriteFault, write_whole};
