//! What is shown of a text at an offset: the line and the column, that line or a part of it, and carets below.
//!
//! A caller may rely on the place, on the line, and on it that an excerpt tells what is left out. How an excerpt is
//! printed, and how wide characters are, rests on rows of examples, which `ent_told_rows` plays.
#![tactic(auto)]

mod excerpt;
mod line;
mod place;

pub use excerpt::{Excerpt, columns};
pub use line::Line;
pub use place::Place;
