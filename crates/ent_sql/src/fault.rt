//! Why a text is no input.
ghost use Rattle.std.specs.Prelude.{◌≡◌};
ghost use Rattle.ent_sql.specs.Fault.{code_of, place_of, fault_of};

use ent_text::{GrammarFault, TextFault};
use thiserror::Error;

/// The first fault of an input: all faults of its tokens come before those of its grammar. Each place is a byte
/// offset from the input's start.
#[derive(Clone, Copy, Debug, PartialEq, Eq, Error)]
pub enum SqlFault {
    #[error("{0}")]
    Text(TextFault),
    /// The first token that can't follow what stands before it; at the input's end, the input's length.
    #[error("E201 at {0}: this can't follow what stands before it")]
    Unexpected(usize),
    /// The first token of the first thing beyond a limit.
    #[error("E202 at {0}: there are too many of these")]
    TooMany(usize),
}

impl SqlFault {
    /// The fault's number, as 201.
    pub fn code(self) -> u16
        ensures { result ≡ code_of self }
    {
        match self {
            SqlFault::Text(fault) => fault.code(),
            SqlFault::Unexpected(_) => 201,
            SqlFault::TooMany(_) => 202,
        }
    }

    /// Where it stands, in bytes from the input's start.
    pub fn place(self) -> usize
        ensures { result ≡ place_of self }
    {
        match self {
            SqlFault::Text(fault) => fault.place(),
            SqlFault::Unexpected(place) | SqlFault::TooMany(place) => place,
        }
    }
}

/// The fault of an input whose tokens have this one.
pub(crate) fn fault_of(fault: GrammarFault) -> SqlFault
    ensures { result ≡ fault_of fault }
{
    match fault {
        GrammarFault::Unexpected(place) => SqlFault::Unexpected(place),
        GrammarFault::TooMany(place) => SqlFault::TooMany(place),
    }
}
