//! The texts of a room.
ghost use Rattle.std.specs.Prelude.{◌≡◌, ◌++◌, ◌∷◌, [], IfErr, IfOk, IfSome, MatchOption, None, Some, pos};
ghost use Rattle.ent_book.specs.Tables.{book_seen};
ghost use Rattle.ent_driver.specs.Told.{lines_under};
ghost use Rattle.ent_book.specs.Version.{text_of};
ghost use Rattle.ent_room.specs.State.{StandsAs};
ghost use Rattle.ent_room.specs.declared.state.State.{State as StateSeen};
ghost use Rattle.ent_room.specs.declared.epoch_book.EpochBook.{EpochBook as LastBook};
ghost use Rattle.ent_room_calls.specs.Fault.{status as fault_status};
ghost use Rattle.ent_room_calls.specs.Text.{HasNoTable};
ghost use Rattle.ent_room_calls.specs.Why.{why_text};
ghost use Rattle.ent_room_calls.specs.declared.fault.RoomFault.TheVariants.{Memory};
ghost use Rattle.ent_semantics.specs.Book.{IsLegal};
ghost use Rattle.ent_waiting.specs.WaitingList.{waiter_of};
ghost use Rattle.ent_c.specs.Calls.{HandsOut};
ghost use Rattle.ent_c.specs.Looks.{HandsRoom, ReportsOf};
ghost use Rattle.ent_c.specs.Rooms.{InRoom, IsMisused, TellsRoom};
ghost use Rattle.ent_c.specs.Told.{told_of_text};
ghost use Rattle.ent_c.specs.Version.{version_numbered};

use crate::room_handle::RoomHandle;
use crate::room_told::hand_out_of_room;
use crate::told::CallTold;
use crate::version::version_numbered;
use crate::{MISUSED, REFUSED};
use ent_book::ReportVersion;
use ent_room::Room;
use ent_room_calls::{RoomFault, book_text, table_text, why_line};
use ent_waiting::Ticket;
use std::alloc::Global;

/// Hands out the lines of a table as it stands.
#[unsafe(no_mangle)]
pub extern "C" fn ent_c_room_table(
    alloc: Global,
    handle: &mut RoomHandle,
    name: &[u8],
    buffer: &mut [u8],
    told: &mut CallTold,
) -> i32
    ensures { InRoom handle.old.held handle.new.held result ((buffer.new ≡ buffer.old) × (told.new ≡ told.old))
        (λ room. HandsRoom (λ text. lines_under room.admission.epoch.core name.now ≡ Some text)
        (HasNoTable room.admission.epoch.core name.now) name.now buffer.old buffer.new told.new result) }
{
    let Some(room) = handle.take(alloc) else {
        return MISUSED;
    };
    let text = table_text(alloc, &room, name);
    handle.put(room);
    hand_out_of_room(text, name, buffer, told)
}

/// The report of an epoch that ended, and its number.
#[derive(Drop)]
struct Reported {
    epoch: u64,
    text: Vec<u8>,
}

/// The report of the epoch that ended last; nothing where none did.
fn report_in(
    alloc: Global,
    room: &Room,
    version: ReportVersion,
) -> Result<Option<Reported>, RoomFault>
    ensures reported { IfOk result (λ reported. MatchOption reported (room.now.last ≡ None)
        (λ reported. (last : LastBook) × (room.now.last ≡ Some last) × IsLegal (book_seen last.book)
        × (reported.epoch ≡ last.epoch) × (reported.text.items ≡ text_of version (book_seen last.book)))) }
    ensures refused { IfErr result (λ fault. fault ≡ Memory) }
{
    match room.book() {
        Some(last) => {
            let text = book_text(alloc, &last.book, version)?;
            Ok(Some(Reported {
                epoch: last.epoch,
                text,
            }))
        }
        None => Ok(None),
    }
}

/// Hands out the report of the epoch that ended last, and tells the epoch's number.
fn hand_out_report(
    reported: Result<Option<Reported>, RoomFault>,
    buffer: &mut [u8],
    epoch: &mut u64,
    told: &mut CallTold,
) -> i32
    ensures handed { IfOk reported (λ reported. IfSome reported (λ reported. (epoch.new ≡ reported.epoch)
        × HandsOut reported.text.items buffer.old buffer.new told.new × (result ≡ pos 0))) }
    ensures none { IfOk reported (λ reported. reported ≡ None
        → (buffer.new ≡ buffer.old) × (epoch.new ≡ epoch.old) × (told.new ≡ told_of_text 0) × (result ≡ pos 1)) }
    ensures refused { IfErr reported (λ fault. (buffer.new ≡ buffer.old) × (epoch.new ≡ epoch.old)
        × TellsRoom fault [] told.new × (result ≡ pos (fault_status fault))) }
{
    match reported {
        Ok(
            Some(
                Reported {
                    epoch: number,
                    text,
                },
            ),
        ) => {
            *epoch = number;
            hand_out_of_room(Ok(text), &[], buffer, told)
        }
        Ok(None) => {
            *told = CallTold::text(0);
            REFUSED
        }
        Err(fault) => hand_out_of_room(Err(fault), &[], buffer, told),
    }
}

/// Hands out the report of the epoch that ended last in the room behind a handle, and tells the epoch's number.
fn report_of_room(
    alloc: Global,
    handle: &mut RoomHandle,
    version: ReportVersion,
    buffer: &mut [u8],
    epoch: &mut u64,
    told: &mut CallTold,
) -> i32
    ensures { InRoom handle.old.held handle.new.held result
        ((buffer.new ≡ buffer.old) × (epoch.new ≡ epoch.old) × (told.new ≡ told.old))
        (λ room. ReportsOf version room epoch.old epoch.new buffer.old buffer.new told.new result) }
{
    let Some(room) = handle.take(alloc) else {
        return MISUSED;
    };
    let reported = report_in(alloc, &room, version);
    handle.put(room);
    hand_out_report(reported, buffer, epoch, told)
}

/// Hands out the report of the epoch that ended last, and tells the epoch's number.
#[unsafe(no_mangle)]
pub extern "C" fn ent_c_room_report(
    alloc: Global,
    handle: &mut RoomHandle,
    version: u32,
    buffer: &mut [u8],
    epoch: &mut u64,
    told: &mut CallTold,
) -> i32
    ensures { MatchOption (version_numbered version)
        (IsMisused handle.old.held handle.new.held result
        ((buffer.new ≡ buffer.old) × (epoch.new ≡ epoch.old) × (told.new ≡ told.old)))
        (λ version. InRoom handle.old.held handle.new.held result
        ((buffer.new ≡ buffer.old) × (epoch.new ≡ epoch.old) × (told.new ≡ told.old))
        (λ room. ReportsOf version room epoch.old epoch.new buffer.old buffer.new told.new result)) }
{
    match version_numbered(version) {
        Some(version) => report_of_room(alloc, handle, version, buffer, epoch, told),
        None => MISUSED,
    }
}

/// Hands out a line that says how a ticket stands.
#[unsafe(no_mangle)]
pub extern "C" fn ent_c_room_why(
    alloc: Global,
    handle: &mut RoomHandle,
    ticket: u64,
    buffer: &mut [u8],
    told: &mut CallTold,
) -> i32
    ensures { InRoom handle.old.held handle.new.held result ((buffer.new ≡ buffer.old) × (told.new ≡ told.old))
        (λ room. HandsRoom (λ text. (seen : StateSeen) × StandsAs room.admission ticket seen
        × (text ≡ why_text (waiter_of room.admission.list ticket) seen ++ 10 ∷ [])) (λ fault. fault ≡ Memory) []
        buffer.old buffer.new told.new result) }
{
    let Some(room) = handle.take(alloc) else {
        return MISUSED;
    };
    let line = why_line(alloc, &room, Ticket::new(ticket));
    handle.put(room);
    hand_out_of_room(line, &[], buffer, told)
}
