//! An ordinary script that runs alone ends in that run.
//!
//! A script is ordinary if none of its statements is entangled, so that it waits for nobody's answer. If a run has one
//! member alone, no other member holds a lock, so nothing blocks it: until it commits, rolls back or fails it can move,
//! and a run can't end while a member can move. So it never gives up, and never waits for another run.
#![tactic(auto)]

mod alone_law;

pub use alone_law::ordinary_scripts_end_alone;
