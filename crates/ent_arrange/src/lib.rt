//! An input with its scripts in another order, so that those that may meet share a run.
//!
//! A run takes the first 64 scripts that wait, and whoever goes on goes to the end. So two scripts of a crowd that
//! stand further apart never meet, however many runs they ask for. [`arrange`] writes whole meetings one after the
//! other.
#![tactic(auto)]

mod again;
mod arranging;
mod blocks;
mod cut;
mod doubts;
mod meeting;
mod order;
mod sizes;
mod told;
mod waiting;

pub use arranging::arrange;
pub use told::ArrangementSummary;
