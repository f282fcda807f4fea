//! Why a call on a table answers nothing.

use ent_value::{Refusal, Row};
use thiserror::Error;

/// More than [`ent_value::MOST_ROWS`] rows would stand.
#[derive(Debug, Drop, Error)]
#[error("E310: table full")]
pub struct TableFull;

/// Why rows made no table, and these rows as they were handed in.
#[derive(Debug, Drop)]
pub struct LoadRefused {
    pub rows: Vec<Row>,
    pub refusal: Refusal<TableFull>,
}
