//! What C has of values for host variables: a pointer that it doesn't look behind.
ghost use Rattle.std.specs.Prelude.{◌≡◌, List, MatchOption};
ghost use Rattle.std.specs.Coded.{coded_option};
ghost use Rattle.std.specs.declared.option.Option.{Option};
ghost use Rattle.std.specs.declared.option.Option.TheVariants.{None, Some};
ghost use Rattle.ent_pointer.specs.Handle.{held_at};
ghost use Rattle.ent_bound.specs.declared.variable.BoundVariable.{BoundVariable};
ghost use Rattle.ent_room_calls.specs.contracts.values.BoundValues.{the_row as values_row};

use ent_pointer::RawBox;
use ent_room_calls::BoundValues;
use std::alloc::Global;
use std::marker::Model;
use std::mem::replace;

/// Null, or it owns values. C calls it the place of an `entangle_values *`.
#[repr(C)]
pub struct ValuesHandle {
    at: *mut u8,
    alloc: Global,
    pub ghost held: { Option (List BoundVariable) } by { coded_option values_row.coded },
}

impl Model for ValuesHandle {
    ghost also_owns = { λ h. held_at values_row h.alloc h.at h.held };
}

impl ValuesHandle {
    /// It holds nothing.
    pub(crate) fn null(alloc: Global) -> ValuesHandle
        ensures { result.held ≡ None }
    {
        ValuesHandle::of_raw(RawBox::null(alloc))
    }

    fn of_raw(raw: RawBox<BoundValues>) -> ValuesHandle
        ensures { result.held ≡ raw.held }
    {
        let RawBox { at, alloc } = raw;
        ValuesHandle {
            at: at as *mut u8,
            alloc,
        }
    }

    fn into_raw(self) -> RawBox<BoundValues>
        ensures { result.held ≡ self.held }
    {
        let ValuesHandle { at, alloc } = self;
        RawBox {
            at: at as *mut BoundValues,
            alloc,
        }
    }

    /// Takes the values out, and leaves null.
    pub(crate) fn take(&mut self, alloc: Global) -> Option<Box<BoundValues>>
        ensures taken { MatchOption result (self.old.held ≡ None) (λ b. self.old.held ≡ Some b.value) }
        ensures left { self.new.held ≡ None }
    {
        replace(self, ValuesHandle::null(alloc))
            .into_raw()
            .into_box()
    }

    /// Puts values in, and drops those that were there.
    pub(crate) fn put(&mut self, values: Box<BoundValues>)
        ensures { self.new.held ≡ Some values.value }
    {
        let new = ValuesHandle::of_raw(RawBox::of(values));
        drop(replace(self, new).into_raw().into_box());
    }
}
