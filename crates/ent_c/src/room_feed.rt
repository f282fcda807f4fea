//! The feed of a room: the groups of what committed and ended, until the caller has them.
ghost use Rattle.std.specs.Prelude.{◌≡◌, [], pos};
ghost use Rattle.ent_feed.specs.Feed.{from};
ghost use Rattle.ent_room_calls.specs.Groups.{group_lines};
ghost use Rattle.ent_room_calls.specs.declared.fault.RoomFault.TheVariants.{Memory};
ghost use Rattle.ent_c.specs.Feeds.{SettlesThrough};
ghost use Rattle.ent_c.specs.Looks.{HandsRoom};
ghost use Rattle.ent_c.specs.Rooms.{InRoom, OfRoom};

use crate::room_handle::RoomHandle;
use crate::room_told::hand_out_of_room;
use crate::told::CallTold;
use crate::{DONE, MISUSED};
use ent_room_calls::group_lines;
use std::alloc::Global;

/// Hands out the lines of the groups from a number on that are kept, in order of their numbers.
#[unsafe(no_mangle)]
pub extern "C" fn ent_c_room_groups(
    alloc: Global,
    handle: &mut RoomHandle,
    number: u64,
    buffer: &mut [u8],
    told: &mut CallTold,
) -> i32
    ensures { InRoom handle.old.held handle.new.held result ((buffer.new ≡ buffer.old) × (told.new ≡ told.old))
        (λ room. HandsRoom (λ text. text ≡ group_lines (from number room.admission.feed.groups))
        (λ fault. fault ≡ Memory) [] buffer.old buffer.new told.new result) }
{
    let Some(room) = handle.take(alloc) else {
        return MISUSED;
    };
    let lines = group_lines(alloc, &room, number);
    handle.put(room);
    hand_out_of_room(lines, &[], buffer, told)
}

/// Tells the number of the next group.
#[unsafe(no_mangle)]
pub extern "C" fn ent_c_room_next_group(
    alloc: Global,
    handle: &mut RoomHandle,
    number: &mut u64,
) -> i32
    ensures { InRoom handle.old.held handle.new.held result (number.new ≡ number.old)
        (λ room. (number.new ≡ room.admission.feed.next) × (result ≡ pos 0)) }
{
    let Some(room) = handle.take(alloc) else {
        return MISUSED;
    };
    *number = room.next_group();
    handle.put(room);
    DONE
}

/// Keeps the groups up to this number no longer: the caller has them.
#[unsafe(no_mangle)]
pub extern "C" fn ent_c_room_settled_through(
    alloc: Global,
    handle: &mut RoomHandle,
    number: u64,
) -> i32
    ensures { OfRoom handle.old.held handle.new.held result (Unit {0})
        (λ old new. SettlesThrough number old new × (result ≡ pos 0)) }
{
    let Some(mut room) = handle.take(alloc) else {
        return MISUSED;
    };
    room.settled_through(number);
    handle.put(room);
    DONE
}
