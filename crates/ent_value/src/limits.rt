//! Limits of what a database holds.

/// The most rows that stand in a table.
pub const MOST_ROWS: usize = 65_536;
