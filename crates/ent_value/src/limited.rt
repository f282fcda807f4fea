//! A list of elements with a limit.
ghost use Rattle.std.specs.Prelude.{◌≡◌, [], ◌∷◌, ◌++◌, ◌<◌, ◌≤◌, length, OnOk, OnErr, IfOk, IfErr};

use crate::sequence::Sequence;
use std::alloc::{AllocError, AllocFailed, Global};
use std::marker::Model;
use std::ops::Deref;

/// A list of at most `LIMIT` elements, which contracts see as that list. Its elements are read by the calls of
/// [`Sequence`].
pub struct Limited<T, const LIMIT: usize> {
    elements: Sequence<T>,
}

impl<T: Drop, const LIMIT: usize> Drop for Limited<T, LIMIT> {
    fn drop(self) {
        let Limited {
            elements: _elements,
        } = self;
    }
}

impl<T, const LIMIT: usize> Model for Limited<T, LIMIT> {
    ghost use Rattle.std.specs.Prelude.{List, length, ◌≤◌};

    ghost Value = { List T };

    ghost view = { λ l. l.elements };

    ghost invariant = { λ l. length l.elements ≤ LIMIT };
}

impl<T, const LIMIT: usize> Limited<T, LIMIT> {
    /// The list of no element. It takes no memory.
    pub fn new(alloc: Global) -> Self
        ensures { result ≡ [] }
    {
        Limited {
            elements: Sequence::new(alloc),
        }
    }

    /// The list of no element, with room for so many.
    pub fn with_capacity(alloc: Global, room: usize) -> Result<Self, AllocError>
        ensures { IfOk result (λ made. made ≡ []) }
    {
        let elements = Sequence::with_capacity(alloc, room)?;
        Ok(Limited { elements })
    }

    /// Puts an element at the end. Where memory runs out the element comes back.
    pub fn push(&mut self, element: T) -> Result<(), AllocFailed<T>>
        requires { length self.old < LIMIT }
        ensures ok { OnOk result (self.new ≡ self.old ++ element ∷ []) }
        ensures err { OnErr result (self.new ≡ self.old) }
        ensures returned { IfErr result (λ e. e.value ≡ element) }
    {
        self.elements.push(element)
    }

    /// The elements as a vector, moved and not copied.
    pub fn into_vec(self) -> Vec<T>
        ensures items { result.items ≡ self }
        ensures limit { length result.items ≤ LIMIT }
    {
        let Limited { elements } = self;
        elements.into_vec()
    }

    /// The same elements, with room for one more at most.
    pub fn shrunk(self) -> Self
        ensures { result ≡ self }
    {
        let Limited { elements } = self;
        Limited {
            elements: elements.shrunk(),
        }
    }

    pub fn len(&self) -> usize
        ensures len { result ≡ length self.now }
        ensures limit { result ≤ LIMIT }
    {
        self.elements.len()
    }
}

impl<T, const LIMIT: usize> Deref for Limited<T, LIMIT> {
    type Target = Sequence<T>;

    ghost deref_gives = { λ limited sequence. sequence ≡ limited };

    fn deref(&self) -> &Sequence<T> {
        &self.elements
    }
}
