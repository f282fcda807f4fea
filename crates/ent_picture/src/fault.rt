//! Why there is no picture.
use ent_group::Tx;
use thiserror::Error;

/// A line that can't stand where it stands in a trace, counted from 1. A last event without its reply is one; of an
/// empty text it is the first line, which isn't there.
#[derive(Clone, Copy, Debug, PartialEq, Eq, Error)]
#[error("E604 at {line}")]
pub struct StrangeLine {
    pub line: u64,
}

/// Why there is no picture.
#[derive(Clone, Copy, Debug, PartialEq, Eq, Error)]
pub enum DrawFault {
    /// The text isn't a trace.
    #[error("{0}")]
    Strange(StrangeLine),
    /// A transaction is picked that is in no run of the trace.
    #[error("the trace has no transaction {0}")]
    Absent(Tx),
}
