//! A list of elements.
ghost use Rattle.std.specs.Prelude.{◌≡◌, [], ◌∷◌, ◌++◌, ◌==◌, ◌<◌, length, OnOk, OnErr, IfOk, IfErr, slice_get};
ghost use Rattle.std.specs.Prelude.{vec_len, vec_capacity};
ghost use Rattle.std.specs.Slice.Iter.{iter_rest};
ghost use Rattle.std.specs.Option.{option_copied};

use std::alloc::{AllocError, AllocFailed, Global};
use std::marker::Model;
use std::slice::Iter;

/// Room for one element more: for the first just its own, and for as many again as there are once they fill it. A tree
/// has many lists that stay short.
fn make_room<T>(elements: &mut Vec<T>) -> Result<(), AllocError>
    ensures same { elements.new.items ≡ elements.old.items }
    ensures room { OnOk result (vec_len elements.new < vec_capacity elements.new) }
{
    let len = elements.len();
    if len < elements.capacity() {
        return Ok(());
    }
    elements.reserve_exact(len.max(1))
}

/// A list of elements, which contracts see as that list and nothing else: two sequences of the same elements are
/// the same, whatever room they hold.
pub struct Sequence<T> {
    elements: Vec<T>,
}

impl<T: Drop> Drop for Sequence<T> {
    fn drop(self) {
        let Sequence {
            elements: _elements,
        } = self;
    }
}

impl<T> Model for Sequence<T> {
    ghost use Rattle.std.specs.Prelude.{List};

    ghost Value = { List T };

    ghost view = { λ s. s.elements.items };
}

impl<T> Sequence<T> {
    /// The sequence of no element. It takes no memory.
    pub fn new(alloc: Global) -> Self
        ensures { result ≡ [] }
    {
        Sequence {
            elements: Vec::new(alloc),
        }
    }

    /// The sequence of no element, with room for so many.
    pub fn with_capacity(alloc: Global, room: usize) -> Result<Self, AllocError>
        ensures { IfOk result (λ made. made ≡ []) }
    {
        let elements = Vec::with_capacity(alloc, room)?;
        Ok(Sequence { elements })
    }

    /// The elements of a vector, which is moved and not copied.
    pub fn from_vec(elements: Vec<T>) -> Self
        ensures { result ≡ elements.items }
    {
        Sequence { elements }
    }

    /// The elements as a vector, moved and not copied.
    pub fn into_vec(self) -> Vec<T>
        ensures { result.items ≡ self }
    {
        let Sequence { elements } = self;
        elements
    }

    /// Puts an element at the end. Where memory runs out the element comes back.
    pub fn push(&mut self, element: T) -> Result<(), AllocFailed<T>>
        ensures ok { OnOk result (self.new ≡ self.old ++ element ∷ []) }
        ensures err { OnErr result (self.new ≡ self.old) }
        ensures returned { IfErr result (λ e. e.value ≡ element) }
    {
        match make_room(&mut self.elements) {
            Ok(()) => {
                self.elements.push_reserved(element);
                Ok(())
            }
            Err(AllocError) => Err(AllocFailed { value: element }),
        }
    }

    /// The same elements, with room for one more at most: giving back the room of one costs more than it is worth.
    pub fn shrunk(self) -> Self
        ensures { result ≡ self }
    {
        let mut elements = self.into_vec();
        if elements.capacity() - elements.len() > 1 {
            elements.shrink_to_fit();
        }
        Sequence::from_vec(elements)
    }

    pub fn len(&self) -> usize
        ensures { result ≡ length self.now }
    {
        self.elements.len()
    }

    pub fn is_empty(&self) -> bool
        ensures { result ≡ (length self.now == 0) }
    {
        self.elements.is_empty()
    }

    /// The element at an index, counted from 0.
    pub fn get(&self, index: usize) -> Option<&T>
        ensures { option_copied result ≡ slice_get self.now index }
    {
        self.elements.get(index)
    }

    pub fn as_slice(&self) -> &[T]
        ensures { result.now ≡ self.now }
    {
        self.elements.as_slice()
    }

    pub fn iter(&self) -> Iter<'_, T>
        ensures { iter_rest result ≡ self.now }
    {
        self.elements.iter()
    }
}
