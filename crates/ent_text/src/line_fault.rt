//! Why a line isn't read.

/// What stands in front is nothing of the sort that is wanted.
#[derive(Clone, Copy, Debug, PartialEq, Eq)]
pub enum LineFault {
    Misfit,
}
