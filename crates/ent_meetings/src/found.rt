//! The answers of a search.

/// What stopped a search.
#[derive(Clone, Copy, Debug, PartialEq, Eq)]
pub enum Bound {
    /// The looks are used up. The next call goes on where this one stopped.
    Looks,
    /// As many meetings were handed out as one root may have. Its other meetings wait for a change.
    Choices,
}

/// What a search found.
#[derive(Debug, Drop)]
pub enum Found {
    /// Another meeting of the root: its tickets, by arrival.
    Meeting(Vec<u64>),
    /// The root stands in no closed set of those who wait, of whatever size.
    Lonely,
    /// There is no other meeting: each has one of those in it that were handed out. Where none was handed out, there is
    /// no meeting of the root.
    Nobody,
    /// The search stopped before it knew.
    Stopped(Bound),
}
