//! Why tokens are no sentence.
use thiserror::Error;

/// The first fault of some tokens. Each place is that of a token; at the end of them, the end that was given.
#[derive(Clone, Copy, Debug, PartialEq, Eq, Error)]
pub enum GrammarFault {
    /// The first token that can't follow what stands before it.
    #[error("at {0}: this can't follow what stands before it")]
    Unexpected(usize),
    /// The first token of the first thing beyond a limit.
    #[error("at {0}: there are too many of these")]
    TooMany(usize),
}
