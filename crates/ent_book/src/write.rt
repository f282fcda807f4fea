//! A report written out.
ghost use Rattle.std.specs.Prelude.{◌≡◌, Err, List, OnErr, OnOk, ℕ};
ghost use Rattle.std.specs.Io.KnownBytes.{Appends};
ghost use Rattle.ent_value.specs.Watched.{IsUnmarked};
ghost use Rattle.ent_value.specs.declared.refusal.Refusal.TheVariants.{Memory};
ghost use Rattle.ent_print.specs.Write.{AppendsBeginning, is_marked};
ghost use Rattle.ent_book.specs.Report.{report_text};
ghost use Rattle.ent_book.specs.Report2.{report_2_text};
ghost use Rattle.ent_book.specs.Tables.{book_seen};
ghost use Rattle.ent_book.specs.Write.{is_fault};

use crate::report::{report, report_2};
use crate::table::NamedTable;
use ent_print::{WriteFault, write_whole};
use ent_semantics::Book;
use ent_value::{Refusal, Sequence, Watched};
use std::alloc::Global;
use std::io::Write;

/// Writes the report of a book, version 1. The whole text is made before its first byte is written, so that nothing is
/// written where memory runs out.
///
/// The writer is handed in unmarked, as [`Watched::new`] makes it, so that its marks tell of this call.
pub fn write_report<W: Write>(
    alloc: Global,
    book: &Book<Sequence<NamedTable>>,
    writer: &mut Watched<W>,
) -> Result<(), Refusal<WriteFault>>
    requires unmarked { IsUnmarked writer.old }
    ensures written { OnOk result
        (Appends (W.contents writer.old.inner) (W.contents writer.new.inner) (report_text (book_seen book.now))) }
    // Where memory ran out, the writer is as it was.
    ensures same { result ≡ Err Memory → writer.new ≡ writer.old }
    // What went out before a fault is a beginning of the report.
    ensures beginning { OnErr result (AppendsBeginning (W.contents writer.old.inner) (W.contents writer.new.inner)
        (report_text (book_seen book.now))) }
    // A fault of the writer is answered exactly where it failed, or took no byte.
    ensures marks { is_marked writer.new ≡ is_fault result }
{
    let text = report(alloc, book)?;
    match write_whole(writer, text.as_slice()) {
        Ok(()) => Ok(()),
        Err(fault) => Err(Refusal::Fault(fault)),
    }
}

/// Writes the report of a book, version 2, which can be checked alone. Its promises are those of [`write_report`].
pub fn write_report_2<W: Write>(
    alloc: Global,
    book: &Book<Sequence<NamedTable>>,
    writer: &mut Watched<W>,
) -> Result<(), Refusal<WriteFault>>
    requires unmarked { IsUnmarked writer.old }
    ensures written { OnOk result
        (Appends (W.contents writer.old.inner) (W.contents writer.new.inner) (report_2_text (book_seen book.now))) }
    // Where memory ran out, the writer is as it was.
    ensures same { result ≡ Err Memory → writer.new ≡ writer.old }
    // What went out before a fault is a beginning of the report.
    ensures beginning { OnErr result (AppendsBeginning (W.contents writer.old.inner) (W.contents writer.new.inner)
        (report_2_text (book_seen book.now))) }
    // A fault of the writer is answered exactly where it failed, or took no byte.
    ensures marks { is_marked writer.new ≡ is_fault result }
{
    let text = report_2(alloc, book)?;
    match write_whole(writer, text.as_slice()) {
        Ok(()) => Ok(()),
        Err(fault) => Err(Refusal::Fault(fault)),
    }
}
