//! Why a text has no tokens.
ghost use Rattle.std.specs.Prelude.{◌≡◌};
ghost use Rattle.ent_text.specs.Fault.{code_of, place_of};

use thiserror::Error;

/// The first fault of a text from the left. Its place is a byte offset from the text's start.
#[derive(Clone, Copy, Debug, PartialEq, Eq, Error)]
pub enum TextFault {
    /// A character that may not stand there: a control character in a text, or no beginning of a token or comment, as
    /// an `@` that no letter follows.
    #[error("E101 at {0}: this character can't stand here")]
    BadChar(usize),
    /// A text without its closing quote; the place is its opening quote.
    #[error("E102 at {0}: this text isn't closed")]
    OpenText(usize),
    /// A number above 9223372036854775807; the place is its first digit.
    #[error("E103 at {0}: this number is too large")]
    NumberTooLarge(usize),
    /// A text of more than 255 bytes, or a word of more than 63, also that of a host variable; the place is the first
    /// byte, the `@` of a host variable.
    #[error("E104 at {0}: this text or word is too long")]
    TextTooLong(usize),
}

impl TextFault {
    /// The fault's number, as 102.
    pub fn code(self) -> u16
        ensures { result ≡ code_of self }
    {
        match self {
            TextFault::BadChar(_) => 101,
            TextFault::OpenText(_) => 102,
            TextFault::NumberTooLarge(_) => 103,
            TextFault::TextTooLong(_) => 104,
        }
    }

    /// Where it stands, in bytes from the text's start.
    pub fn place(self) -> usize
        ensures { result ≡ place_of self }
    {
        match self {
            TextFault::BadChar(place)
            | TextFault::OpenText(place)
            | TextFault::NumberTooLarge(place)
            | TextFault::TextTooLong(place) => place,
        }
    }
}
