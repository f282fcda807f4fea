//! What C has of a driver: a pointer that it doesn't look behind.
ghost use Rattle.std.specs.Prelude.{◌≡◌, MatchOption};
ghost use Rattle.std.specs.Coded.{coded_option};
ghost use Rattle.std.specs.declared.option.Option.{Option};
ghost use Rattle.std.specs.declared.option.Option.TheVariants.{None, Some};
ghost use Rattle.ent_pointer.specs.Handle.{held_at};
ghost use Rattle.ent_driver.specs.contracts.driver.Driver.{the_row as driver_row};
ghost use Rattle.ent_driver.specs.declared.driver.Driver.{Driver as DriverValue};

use ent_driver::Driver;
use ent_pointer::RawBox;
use std::alloc::Global;
use std::marker::Model;
use std::mem::replace;

/// Null, or it owns a driver. C calls it the place of an `entangle_driver *`.
#[repr(C)]
pub struct Handle {
    at: *mut u8,
    alloc: Global,
    pub ghost held: { Option DriverValue } by { coded_option driver_row.coded },
}

impl Model for Handle {
    ghost also_owns = { λ h. held_at driver_row h.alloc h.at h.held };
}

impl Handle {
    /// It holds nothing.
    pub(crate) fn null(alloc: Global) -> Handle
        ensures { result.held ≡ None }
    {
        Handle::of_raw(RawBox::null(alloc))
    }

    fn of_raw(raw: RawBox<Driver>) -> Handle
        ensures { result.held ≡ raw.held }
    {
        let RawBox { at, alloc } = raw;
        Handle {
            at: at as *mut u8,
            alloc,
        }
    }

    fn into_raw(self) -> RawBox<Driver>
        ensures { result.held ≡ self.held }
    {
        let Handle { at, alloc } = self;
        RawBox {
            at: at as *mut Driver,
            alloc,
        }
    }

    /// Takes the driver out, and leaves null.
    pub(crate) fn take(&mut self, alloc: Global) -> Option<Box<Driver>>
        ensures taken { MatchOption result (self.old.held ≡ None) (λ b. self.old.held ≡ Some b.value) }
        ensures left { self.new.held ≡ None }
    {
        replace(self, Handle::null(alloc)).into_raw().into_box()
    }

    /// Puts a driver in, and drops the one that was there.
    pub(crate) fn put(&mut self, driver: Box<Driver>)
        ensures { self.new.held ≡ Some driver.value }
    {
        let new = Handle::of_raw(RawBox::of(driver));
        drop(replace(self, new).into_raw().into_box());
    }
}
