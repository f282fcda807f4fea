//! The groups of a room's feed, in lines of JSON.
ghost use Rattle.std.specs.Prelude.{◌≡◌, IfErr, IfOk};
ghost use Rattle.ent_feed.specs.Feed.{from};
ghost use Rattle.ent_room_calls.specs.Groups.{group_lines};
ghost use Rattle.ent_room_calls.specs.declared.fault.RoomFault.TheVariants.{Memory};

use crate::fault::RoomFault;
use ent_feed::append_line;
use ent_room::Room;
use std::alloc::Global;

/// The lines of the groups from a number on that are kept, in order of their numbers.
pub fn group_lines(alloc: Global, room: &Room, number: u64) -> Result<Vec<u8>, RoomFault>
    ensures lines { IfOk result (λ lines. lines.items ≡ group_lines (from number room.now.admission.feed.groups)) }
    ensures refused { IfErr result (λ fault. fault ≡ Memory) }
{
    let mut lines = Vec::new(alloc);
    let groups = room.groups(number);
    for group in groups {
        append_line(alloc, &mut lines, group)?;
    }
    Ok(lines)
}
