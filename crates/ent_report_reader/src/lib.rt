//! A report of version 2, read line by line or whole.
//!
//! A [`Draft`] holds what the lines so far tell. A line is taken just where it can stand below those above it, and the
//! draft then tells what it said before and what the line says.
//!
//! [`read_report`] gives what a text tells exactly if it is a report, and else the line at which it isn't one: that of
//! its first bad byte, or the first line that can't stand there, or is missing.
#![tactic(auto)]

mod answers;
mod bindings;
mod draft;
mod due;
mod frame;
mod joints;
mod kinds;
mod line;
mod lines;
mod lists;
mod located;
mod members;
mod opened;
mod opening;
mod pieces;
mod reading;
mod report;
mod scripts;
mod tables;
mod told;
mod transactions;

pub use draft::Draft;
pub use located::Located;
pub use report::{Report, read_report};
