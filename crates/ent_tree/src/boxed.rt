//! A part of a tree behind a pointer.
ghost use Rattle.std.specs.Prelude.{◌≡◌, IfOk};

use crate::duplicate::Duplicate;
use crate::same::Same;
use std::alloc::{AllocError, Global};
use std::marker::Model;

/// A part of a tree in an allocation of its own, which contracts see as that part. A part that is rarely there stands
/// so, since what holds it is as large as if it were there.
pub struct Boxed<T> {
    part: Box<T>,
}

impl<T: Drop> Drop for Boxed<T> {
    fn drop(self) {
        let Boxed { part: _part } = self;
    }
}

impl<T> Model for Boxed<T> {
    ghost Value = { T };

    ghost view = { λ b. b.part.value };
}

impl<T> Boxed<T> {
    /// Moves a part behind a pointer.
    pub fn new(alloc: Global, part: T) -> Result<Self, AllocError>
    where
        T: Drop,
        ensures { IfOk result (λ made. made ≡ part) }
    {
        let part = Box::new(alloc, part)?;
        Ok(Boxed { part })
    }

    pub fn get(&self) -> &T
        ensures { result.now ≡ self.now }
    {
        &self.part
    }
}

impl<T: Duplicate + Drop> Duplicate for Boxed<T> {
    fn copy(&self, alloc: Global) -> Result<Self, AllocError> {
        Boxed::new(alloc, self.get().copy(alloc)?)
    }
}

impl<T: Same> Same for Boxed<T> {
    fn is_same(&self, other: &Boxed<T>) -> bool {
        self.get().is_same(other.get())
    }
}
