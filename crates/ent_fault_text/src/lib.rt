//! Faults of an input, or of one script, told to people: where one stands, what is wrong there, and what helps.
//!
//! A caller may rely on the place, the line and the column of characters, and on the excerpt, which is that line or a
//! part of it. What the sentences say rests on rows of examples, which `ent_told_rows` plays.
#![tactic(auto)]

mod absent;
mod character;
mod counts;
mod expected;
mod explanation;
mod form;
mod grammar;
mod hints;
mod kinds;
mod mark;
mod misspelt;
mod names;
mod repeated;
mod scene;
mod schema;
mod tokens;
mod typed;
mod valid;
mod variables;
mod whole;
mod words;

pub use explanation::{Explanation, explain_fault, explain_script_fault};
pub use names::nearest;
pub use valid::valid_text;
