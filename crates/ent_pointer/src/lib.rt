//! A box as the pointer to its value, for a handle that is lent to C.
//!
//! A caller may rely on it that a [`RawBox`] owns what the box owned that it was made of, and gives just that box back;
//! so a struct of its two fields can cross to C, which sees a pointer that may be null and doesn't look behind it.
#![tactic(auto)]

ghost use Rattle.std.specs.Prelude.{◌≡◌, MatchOption};
ghost use Rattle.std.specs.Box.Ownership.{box_owns};
ghost use Rattle.std.specs.Coded.{coded_option};
ghost use Rattle.std.specs.declared.option.Option.{Option};
ghost use Rattle.std.specs.declared.option.Option.TheVariants.{None, Some};
ghost use Rattle.ent_pointer.specs.Handle.{held_at};

use std::alloc::{Allocator, Global};
use std::marker::Model;
use std::ptr::null_mut;

/// A pointer that owns its value, and the right to free the block in which it stands.
pub struct LooseBox<T, A: Allocator> {
    pub at: *mut T,
    pub alloc: A,
    pub ghost value: { T },
}

impl<T, A: Allocator> Model for LooseBox<T, A> {
    ghost also_owns = { λ l. box_owns (A.dealloc_token l.alloc) T.row l.at l.value };
}

impl<T: Drop, A: Allocator> LooseBox<T, A> {
    /// The pointer of a box.
    pub fn of(value: Box<T, A>) -> LooseBox<T, A>
        ensures { result.value ≡ value.value }
    {
        let (at, alloc) = Box::into_raw_with_allocator(value);
        LooseBox { at, alloc }
    }

    /// The box that it was.
    pub fn into_box(self) -> Box<T, A>
        ensures { result.value ≡ self.value }
    {
        let LooseBox { at, alloc } = self;
        // The pointer came of a box of this allocator, and this is its one owner.
        unsafe { Box::from_raw(alloc, at) }
    }
}

/// A pointer that is null, or owns its value and the right to free the block in which it stands.
pub struct RawBox<T> {
    pub at: *mut T,
    pub alloc: Global,
    pub ghost held: { Option T } by { coded_option T.code },
}

impl<T> Model for RawBox<T> {
    ghost also_owns = { λ h. held_at T.row h.alloc h.at h.held };
}

impl<T> RawBox<T> {
    /// It owns nothing.
    pub fn null(alloc: Global) -> RawBox<T>
        ensures { result.held ≡ None }
    {
        RawBox {
            at: null_mut(),
            alloc,
        }
    }

    fn of_loose(loose: LooseBox<T, Global>) -> RawBox<T>
        ensures { result.held ≡ Some loose.value }
    {
        let LooseBox { at, alloc } = loose;
        RawBox { at, alloc }
    }

    fn into_loose(self) -> Option<LooseBox<T, Global>>
        ensures { MatchOption result (self.held ≡ None) (λ l. self.held ≡ Some l.value) }
    {
        let RawBox { at, alloc } = self;
        if at.is_null() {
            None
        } else {
            Some(LooseBox { at, alloc })
        }
    }
}

impl<T: Drop> RawBox<T> {
    /// The pointer of a box.
    pub fn of(value: Box<T>) -> RawBox<T>
        ensures { result.held ≡ Some value.value }
    {
        RawBox::of_loose(LooseBox::of(value))
    }

    /// The box that it was, unless it is null.
    pub fn into_box(self) -> Option<Box<T>>
        ensures { MatchOption result (self.held ≡ None) (λ b. self.held ≡ Some b.value) }
    {
        match self.into_loose() {
            Some(loose) => Some(loose.into_box()),
            None => None,
        }
    }
}
