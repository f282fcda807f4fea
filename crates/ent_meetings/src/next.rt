//! The answer of a look-up.

/// Who comes next after a ticket.
#[derive(Debug, PartialEq, Eq)]
pub enum Next {
    /// The ticket of the next one.
    Found(u64),
    /// Nobody comes after.
    Nobody,
    /// There are no looks left. None up to this ticket is the next one, so a later look-up goes on after it.
    Stopped(Option<u64>),
}
