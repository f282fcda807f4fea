//! Rows that are given.
use crate::value::GivenValue;
use ent_tree::MOST_PARTS;
use ent_value::{Limited, Name};

/// A row that is given for the table of a name: its values, in the order of the columns. Nothing says yet that there is
/// such a table, nor that the values fit its columns.
#[derive(Drop)]
pub struct GivenRow {
    pub table: Name,
    pub values: Limited<GivenValue, MOST_PARTS>,
}
