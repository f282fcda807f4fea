//! Why bytes are no input, or no script.
ghost use Rattle.std.specs.Prelude.{◌≡◌};
ghost use Rattle.ent_input.specs.Fault.{code_of, place_of};

use ent_form::FormFault;
use ent_sql::SqlFault;
use thiserror::Error;

/// Why bytes are no input, or no script. Each place is a byte offset from their start.
#[derive(Clone, Copy, Debug, PartialEq, Eq, Error)]
pub enum InputFault {
    /// They are more than [`crate::MOST_BYTES`].
    #[error("E105: the text is too long")]
    TooLong,
    /// They aren't UTF-8; the place is the first byte of what is ill-formed.
    #[error("E100 at {0}: this isn't UTF-8")]
    NotUtf8(usize),
    /// Their tokens or their grammar have a fault.
    #[error("{0}")]
    Sql(SqlFault),
    /// Their names, numbers of values or kinds have a fault.
    #[error("{0}")]
    Form(FormFault),
}

impl InputFault {
    /// The fault's number, as 301.
    pub fn code(self) -> u16
        ensures { result ≡ code_of self }
    {
        match self {
            InputFault::TooLong => 105,
            InputFault::NotUtf8(_) => 100,
            InputFault::Sql(fault) => fault.code(),
            InputFault::Form(fault) => fault.code(),
        }
    }

    /// Where it stands in the text, if it stands anywhere.
    pub fn place(self) -> Option<usize>
        ensures { result ≡ place_of self }
    {
        match self {
            InputFault::TooLong => None,
            InputFault::NotUtf8(place) => Some(place),
            InputFault::Sql(fault) => Some(fault.place()),
            InputFault::Form(fault) => Some(fault.place()),
        }
    }
}
