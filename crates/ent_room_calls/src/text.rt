//! Tables and books, in the lines of a report.
ghost use Rattle.std.specs.Prelude.{◌≡◌, ◌⊎◌, IfErr, IfOk, None, Some, true};
ghost use Rattle.ent_book.specs.Tables.{book_seen};
ghost use Rattle.ent_driver.specs.Told.{lines_under};
ghost use Rattle.ent_book.specs.Version.{text_of};
ghost use Rattle.ent_room_calls.specs.Text.{HasNoTable};
ghost use Rattle.ent_room_calls.specs.declared.fault.RoomFault.TheVariants.{Memory};

use crate::fault::RoomFault;
use ent_book::ReportVersion;
use ent_driver::{lines_under, report_text};
use ent_room::{FinishedBook, Room};
use ent_value::{Name, is_word};
use std::alloc::Global;

/// The lines of the table of this name as it stands, as the report has them.
pub fn table_text(alloc: Global, room: &Room, name: &[u8]) -> Result<Vec<u8>, RoomFault>
    ensures table { IfOk result (λ text. lines_under room.now.admission.epoch.core name.now ≡ Some text.items) }
    ensures refused { IfErr result (λ fault. HasNoTable room.now.admission.epoch.core name.now fault) }
{
    if !is_word(name) {
        return Err(RoomFault::Absent);
    }
    let name = Name::new(alloc, name)?;
    match lines_under(alloc, room.admission().epoch().core(), &name)? {
        Some(text) => Ok(text),
        None => Err(RoomFault::Absent),
    }
}

/// The report of a book, of this version.
pub fn book_text(
    alloc: Global,
    book: &FinishedBook,
    version: ReportVersion,
) -> Result<Vec<u8>, RoomFault>
    ensures text { IfOk result (λ text. text.items ≡ text_of version (book_seen book.now)) }
    ensures refused { IfErr result (λ fault. fault ≡ Memory) }
{
    Ok(report_text(alloc, book.book(), version)?)
}
