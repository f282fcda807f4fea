//! Warnings about an input before its scripts run, for people: demands that no statement of it offers, or only their
//! own, answer relations of which rows are only demanded or only offered, writers that a waiting statement keeps out,
//! scripts that may meet and stand far apart, and scripts that need more others than a run has room for.
//!
//! What statements offer and demand is proved to be what the scripts say, and so is which tables a script writes. Rows
//! of examples test which warnings there are and how they are printed; `ent_rows` plays them.
#![tactic(auto)]

mod apart;
mod kept_out;
mod names;
mod needs;
mod offer;
mod own;
mod postcondition;
mod warnings;

pub use postcondition::Postcondition;
pub use warnings::Warnings;
