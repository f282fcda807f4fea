//! Copies.
ghost use Rattle.std.specs.Prelude.{◌≡◌, IfOk};

use ent_value::{Kind, Limited, Row, Sequence, Value};
use std::alloc::{AllocError, Global};

/// A part of a tree, of which a copy can be made.
pub trait Duplicate: Sized {
    /// A copy, equal to the part in everything, places included. It takes the memory of a new part.
    fn copy(&self, alloc: Global) -> Result<Self, AllocError>
        ensures { IfOk result (λ copy. copy ≡ self.now) };
}

impl Duplicate for usize {
    fn copy(&self, _alloc: Global) -> Result<Self, AllocError> {
        Ok(*self)
    }
}

impl Duplicate for Kind {
    fn copy(&self, _alloc: Global) -> Result<Self, AllocError> {
        Ok(*self)
    }
}

impl Duplicate for Value {
    fn copy(&self, alloc: Global) -> Result<Self, AllocError> {
        Value::copy(self, alloc)
    }
}

impl Duplicate for Row {
    fn copy(&self, alloc: Global) -> Result<Self, AllocError> {
        Row::copy(self, alloc)
    }
}

impl<T: Duplicate + Drop> Duplicate for Sequence<T> {
    fn copy(&self, alloc: Global) -> Result<Self, AllocError> {
        let mut copies = Vec::with_capacity(alloc, self.len())?;
        for element in self.as_slice() {
            copies.push(element.copy(alloc)?)?;
        }
        Ok(Sequence::from_vec(copies))
    }
}

impl<T: Duplicate + Drop, const LIMIT: usize> Duplicate for Limited<T, LIMIT> {
    fn copy(&self, alloc: Global) -> Result<Self, AllocError> {
        // The limit of the elements is that of the copies.
        let mut copies = Limited::with_capacity(alloc, self.len())?;
        let elements = self.as_slice();
        for element in elements {
            copies.push(element.copy(alloc)?)?;
        }
        Ok(copies)
    }
}

impl<T: Duplicate> Duplicate for Option<T> {
    fn copy(&self, alloc: Global) -> Result<Self, AllocError> {
        match self {
            None => Ok(None),
            Some(part) => Ok(Some(part.copy(alloc)?)),
        }
    }
}
