//! When new rows can't give waiting statements an answer.
//!
//! Entangled statements wait because their pool has no choice over the tables as they are. A row that comes matters to
//! a statement only if it can be the row of one of its sources. A source has tests of its own: those whose operands are
//! columns of that source and constants; and the tuple that is looked for may have constants where the sub-select shows
//! columns of that source. A row that fails one of these is ruled out for that source. If all new rows are ruled out
//! for every source of every sub-select, then each grounding over the new tables is one over the old ones, and
//! statements that had no choice have none.
#![tactic(auto)]

mod wake_law;

pub use wake_law::rows_that_are_ruled_out_wake_nobody;
