//! What C has of rows of tables: a pointer that it doesn't look behind.
ghost use Rattle.std.specs.Prelude.{◌≡◌, List, MatchOption};
ghost use Rattle.std.specs.Coded.{coded_option};
ghost use Rattle.std.specs.declared.option.Option.{Option};
ghost use Rattle.std.specs.declared.option.Option.TheVariants.{None, Some};
ghost use Rattle.ent_pointer.specs.Handle.{held_at};
ghost use Rattle.ent_prepare.specs.declared.row.GivenRow.{GivenRow};
ghost use Rattle.ent_room_calls.specs.contracts.rows.GivenRows.{the_row as rows_row};

use ent_pointer::RawBox;
use ent_room_calls::GivenRows;
use std::alloc::Global;
use std::marker::Model;
use std::mem::replace;

/// Null, or it owns rows. C calls it the place of an `entangle_rows *`.
#[repr(C)]
pub struct RowsHandle {
    at: *mut u8,
    alloc: Global,
    pub ghost held: { Option (List GivenRow) } by { coded_option rows_row.coded },
}

impl Model for RowsHandle {
    ghost also_owns = { λ h. held_at rows_row h.alloc h.at h.held };
}

impl RowsHandle {
    /// It holds nothing.
    pub(crate) fn null(alloc: Global) -> RowsHandle
        ensures { result.held ≡ None }
    {
        RowsHandle::of_raw(RawBox::null(alloc))
    }

    fn of_raw(raw: RawBox<GivenRows>) -> RowsHandle
        ensures { result.held ≡ raw.held }
    {
        let RawBox { at, alloc } = raw;
        RowsHandle {
            at: at as *mut u8,
            alloc,
        }
    }

    fn into_raw(self) -> RawBox<GivenRows>
        ensures { result.held ≡ self.held }
    {
        let RowsHandle { at, alloc } = self;
        RawBox {
            at: at as *mut GivenRows,
            alloc,
        }
    }

    /// Takes the rows out, and leaves null.
    pub(crate) fn take(&mut self, alloc: Global) -> Option<Box<GivenRows>>
        ensures taken { MatchOption result (self.old.held ≡ None) (λ b. self.old.held ≡ Some b.value) }
        ensures left { self.new.held ≡ None }
    {
        replace(self, RowsHandle::null(alloc)).into_raw().into_box()
    }

    /// Puts rows in, and drops those that were there.
    pub(crate) fn put(&mut self, rows: Box<GivenRows>)
        ensures { self.new.held ≡ Some rows.value }
    {
        let new = RowsHandle::of_raw(RawBox::of(rows));
        drop(replace(self, new).into_raw().into_box());
    }
}
