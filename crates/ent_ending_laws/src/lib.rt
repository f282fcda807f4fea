//! Who ended otherwise than by a commit is told, in order, each once.
//!
//! A script that waits may end by ROLLBACK, by a failure or by giving up. The feed tells that in groups that have no
//! commits. So a client that reads the groups from a number on learns of each such ending since then, and of no other.
//! Who withdrew isn't told: its client did that.
#![tactic(auto)]

mod ending_law;

pub use ending_law::feeds_tell_who_ended;
