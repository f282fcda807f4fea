//! What C has of a room: a pointer that it doesn't look behind.
ghost use Rattle.std.specs.Prelude.{◌≡◌, MatchOption};
ghost use Rattle.std.specs.Coded.{coded_option};
ghost use Rattle.std.specs.declared.option.Option.{Option};
ghost use Rattle.std.specs.declared.option.Option.TheVariants.{None, Some};
ghost use Rattle.ent_pointer.specs.Handle.{held_at};
ghost use Rattle.ent_room.specs.Room.{Room as RoomSeen};
ghost use Rattle.ent_room.specs.contracts.room.Room.{the_row as room_row};

use ent_pointer::RawBox;
use ent_room::Room;
use std::alloc::Global;
use std::marker::Model;
use std::mem::replace;

/// Null, or it owns a room. C calls it the place of an `entangle_room *`.
#[repr(C)]
pub struct RoomHandle {
    at: *mut u8,
    alloc: Global,
    pub ghost held: { Option RoomSeen } by { coded_option room_row.coded },
}

impl Model for RoomHandle {
    ghost also_owns = { λ h. held_at room_row h.alloc h.at h.held };
}

impl RoomHandle {
    /// It holds nothing.
    pub(crate) fn null(alloc: Global) -> RoomHandle
        ensures { result.held ≡ None }
    {
        RoomHandle::of_raw(RawBox::null(alloc))
    }

    fn of_raw(raw: RawBox<Room>) -> RoomHandle
        ensures { result.held ≡ raw.held }
    {
        let RawBox { at, alloc } = raw;
        RoomHandle {
            at: at as *mut u8,
            alloc,
        }
    }

    fn into_raw(self) -> RawBox<Room>
        ensures { result.held ≡ self.held }
    {
        let RoomHandle { at, alloc } = self;
        RawBox {
            at: at as *mut Room,
            alloc,
        }
    }

    /// Takes the room out, and leaves null.
    pub(crate) fn take(&mut self, alloc: Global) -> Option<Box<Room>>
        ensures taken { MatchOption result (self.old.held ≡ None) (λ b. self.old.held ≡ Some b.value) }
        ensures left { self.new.held ≡ None }
    {
        replace(self, RoomHandle::null(alloc)).into_raw().into_box()
    }

    /// Puts a room in, and drops the one that was there.
    pub(crate) fn put(&mut self, room: Box<Room>)
        ensures { self.new.held ≡ Some room.value }
    {
        let new = RoomHandle::of_raw(RawBox::of(room));
        drop(replace(self, new).into_raw().into_box());
    }
}
