//! The command line of `entangle`: what its words ask for, and how the program ends.
//!
//! The exit status is a function of how the command ended, and says which of a fault's four kinds stopped it.
#![tactic(auto)]

mod arranging;
mod command;
mod drawing;
mod ending;
mod meeting;
mod plainly;
mod running;
mod tally;
mod words;

pub use command::entangle;
pub use ending::Ending;
