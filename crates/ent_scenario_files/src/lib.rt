//! What the programs that go over stored texts have in common: stored runs, words that are read, replies.
//!
//! A program of scenarios plays each that `scenarios/INDEX` names, and a program of rows tells of each that the `INDEX`
//! of a folder names: `NAME.in` is what comes in, and `NAME.out` what has to come out. A scenario of parts has a line a
//! call: [`words`] reads what a call says, and [`replies`] writes what is replied.
#![tactic(auto)]

mod parts;
pub mod replies;
mod rows;
mod scenarios;
pub mod words;

pub use parts::{Part, replies_of_parts};
pub use rows::{run_rows, tell_row};
pub use scenarios::run_scenarios;
