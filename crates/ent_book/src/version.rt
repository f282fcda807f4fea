//! A report written, of either version.
ghost use Rattle.std.specs.Prelude.{◌≡◌, Err, OnErr, OnOk};
ghost use Rattle.std.specs.Io.KnownBytes.{Appends};
ghost use Rattle.ent_value.specs.Watched.{IsUnmarked};
ghost use Rattle.ent_value.specs.declared.refusal.Refusal.TheVariants.{Memory};
ghost use Rattle.ent_print.specs.Write.{AppendsBeginning, is_marked};
ghost use Rattle.ent_book.specs.Tables.{book_seen};
ghost use Rattle.ent_book.specs.Version.{text_of};
ghost use Rattle.ent_book.specs.Write.{is_fault};

use crate::table::NamedTable;
use crate::write::{write_report, write_report_2};
use ent_print::WriteFault;
use ent_semantics::Book;
use ent_value::{Refusal, Sequence, Watched};
use std::alloc::Global;
use std::io::Write;

/// Which text a book's report has.
#[derive(Clone, Copy, Debug, PartialEq, Eq)]
pub enum ReportVersion {
    /// Version 1: fates, answers, joint answers and tables.
    One,
    /// Version 2: the opening, the scripts and the groundings too, so that the report can be checked alone.
    Two,
}

/// Writes the report of a book, of this version. Its promises are those of [`write_report`].
pub fn write_book<W: Write>(
    alloc: Global,
    book: &Book<Sequence<NamedTable>>,
    version: ReportVersion,
    writer: &mut Watched<W>,
) -> Result<(), Refusal<WriteFault>>
    requires unmarked { IsUnmarked writer.old }
    ensures written { OnOk result
        (Appends (W.contents writer.old.inner) (W.contents writer.new.inner) (text_of version (book_seen book.now))) }
    ensures same { result ≡ Err Memory → writer.new ≡ writer.old }
    ensures beginning { OnErr result (AppendsBeginning (W.contents writer.old.inner) (W.contents writer.new.inner)
        (text_of version (book_seen book.now))) }
    ensures marks { is_marked writer.new ≡ is_fault result }
{
    match version {
        ReportVersion::One => write_report(alloc, book, writer),
        ReportVersion::Two => write_report_2(alloc, book, writer),
    }
}
