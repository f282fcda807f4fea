//! Equality.
ghost use Rattle.std.specs.Prelude.{◌≡◌, ◌↔◌, IsTrue};

use ent_value::{Kind, Limited, Name, Row, Sequence, Value};

/// A part of a tree that can be compared with another.
pub trait Same {
    /// Whether the two are equal in everything, places included.
    fn is_same(&self, other: &Self) -> bool
        ensures { IsTrue result ↔ (self.now ≡ other.now) };
}

impl Same for usize {
    fn is_same(&self, other: &usize) -> bool {
        self == other
    }
}

impl Same for Kind {
    fn is_same(&self, other: &Kind) -> bool {
        self == other
    }
}

impl Same for Name {
    fn is_same(&self, other: &Name) -> bool {
        self == other
    }
}

impl Same for Value {
    fn is_same(&self, other: &Value) -> bool {
        self == other
    }
}

impl Same for Row {
    fn is_same(&self, other: &Row) -> bool {
        are_same(self.values(), other.values())
    }
}

impl<T: Same> Same for Option<T> {
    fn is_same(&self, other: &Option<T>) -> bool {
        match self {
            None => other.is_none(),
            Some(mine) => match other {
                None => false,
                Some(theirs) => mine.is_same(theirs),
            },
        }
    }
}

impl<T: Same> Same for Sequence<T> {
    fn is_same(&self, other: &Sequence<T>) -> bool {
        are_same(self.as_slice(), other.as_slice())
    }
}

impl<T: Same, const LIMIT: usize> Same for Limited<T, LIMIT> {
    fn is_same(&self, other: &Limited<T, LIMIT>) -> bool {
        are_same(self.as_slice(), other.as_slice())
    }
}

/// Whether two lists are equal, element by element.
pub fn are_same<T: Same>(mine: &[T], theirs: &[T]) -> bool
    ensures { IsTrue result ↔ (mine.now ≡ theirs.now) }
{
    if mine.len() != theirs.len() {
        return false;
    }
    for index in 0..mine.len() {
        if !mine[index].is_same(&theirs[index]) {
            return false;
        }
    }
    true
}
