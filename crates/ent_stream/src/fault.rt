//! Why a stream isn't read whole.

/// Why a stream isn't read whole, beside want of memory.
#[derive(Clone, Copy, Debug, PartialEq, Eq)]
pub enum StreamFault {
    /// It has more bytes than there may be.
    TooLong,
    /// The reader failed.
    Unreadable,
}
