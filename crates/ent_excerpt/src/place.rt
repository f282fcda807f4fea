//! Where something stands, for people.
ghost use Rattle.std.specs.Prelude.{◌≡◌, ◌+◌, ◌≤◌, ◌<◌, ◌^◌, length, take, chars};
ghost use Rattle.std.specs.Str.{IsCharBoundary};
ghost use Rattle.ent_excerpt.specs.Place.{breaks, IsPlaceAt};

use crate::line::{Line, text_before};
use std::fmt;

/// A line and a column of a text. Both count from 1, the column in characters.
#[derive(Clone, Copy, Debug, PartialEq, Eq)]
pub struct Place {
    pub line: usize,
    pub column: usize,
}

impl Place {
    /// The place of an offset in bytes; within a character, that of the character.
    pub fn of(text: &str, offset: usize) -> Self
        ensures { IsCharBoundary text.now offset → IsPlaceAt text.now offset result }
    {
        let line = breaks(text_before(text, offset)) + 1;
        let column = characters(Line::of(text, offset).before) + 1;
        Place { line, column }
    }
}

/// How many LFs a text has.
fn breaks(text: &str) -> usize
    ensures { result ≡ breaks text.now }
{
    text.bytes().filter(|byte| *byte == b'\n').count()
}

/// How many characters a text has.
fn characters(text: &str) -> usize
    ensures value { result ≡ length (chars text.now) }
    ensures bound { result ≤ length text.now }
    ensures fits { result < 2 ^ 63 }
{
    text.chars().count()
}

impl fmt::Display for Place {
    fn fmt<W: fmt::Write>(&self, f: &mut fmt::Formatter<W>) -> fmt::Result {
        let line = self.line;
        let column = self.column;
        write!(f, "line {line}, column {column}")
    }
}
