//! What a core holds, as the report has it.
ghost use Rattle.std.specs.Prelude.{◌≡◌, IfErr, IfOk, Some};
ghost use Rattle.std.specs.Option.{option_map};
ghost use Rattle.ent_book.specs.Report as report;
ghost use Rattle.ent_book.specs.Tables.{book_seen};
ghost use Rattle.ent_driver.specs.Told.{HasNoTable, answers_so_far, lines_under};
ghost use Rattle.ent_book.specs.Version.{text_of};

use crate::fault::DriverFault;
use ent_book::{NamedTable, ReportVersion, append_answers, append_table, write_book};
use ent_core::{Core, Standing};
use ent_group::Tx;
use ent_rel::Table;
use ent_semantics::{Answer, Book, Fate};
use ent_value::{Name, Sequence, Watched, is_word};
use std::alloc::{AllocError, Global};

/// The answers of a transaction so far: where it has committed, those of its entry in the journal; where it is a member
/// of the run, those that it has and may still lose; else none.
fn answers_so_far(core: &Core, tx: Tx) -> &[Answer]
    ensures { result.now ≡ answers_so_far core.now tx }
{
    match core.standing(tx) {
        Some(Standing::Finished(Fate::Committed { number, .. })) => {
            match core.entry(number as usize) {
                Some(entry) => entry.answers.as_slice(),
                None => &[],
            }
        }
        Some(Standing::Finished(_)) => &[],
        _ => core.answers(tx),
    }
}

/// The lines of a transaction's answers so far, as the report has them.
pub(crate) fn answers_text(alloc: Global, core: &Core, tx: Tx) -> Result<Vec<u8>, AllocError>
    ensures { IfOk result (λ text. text.items ≡ report.answers_text 1 (answers_so_far core.now tx)) }
{
    let mut text = Vec::new(alloc);
    append_answers(alloc, &mut text, answers_so_far(core, tx))?;
    Ok(text)
}

/// The lines of a table under a name.
fn lines_of(alloc: Global, name: &Name, table: &Table) -> Result<Vec<u8>, AllocError>
    ensures { IfOk result (λ text. text.items ≡ report.table_text name.now table.now.rows) }
{
    let mut text = Vec::new(alloc);
    append_table(alloc, &mut text, name, table)?;
    Ok(text)
}

/// The lines of the table of a name as it stands, where one is declared.
pub fn lines_under(alloc: Global, core: &Core, name: &Name) -> Result<Option<Vec<u8>>, AllocError>
    ensures { IfOk result (λ text. option_map (λ text. text.items) text ≡ lines_under core.now name.now) }
{
    match core.table(name) {
        Some(table) => Ok(Some(lines_of(alloc, name, table)?)),
        None => Ok(None),
    }
}

/// The lines of the table of this name as it stands, as the report has them.
pub(crate) fn table_text(alloc: Global, core: &Core, name: &[u8]) -> Result<Vec<u8>, DriverFault>
    ensures table { IfOk result (λ text. lines_under core.now name.now ≡ Some text.items) }
    ensures refused { IfErr result (λ fault. HasNoTable core.now name.now fault) }
{
    if !is_word(name) {
        return Err(DriverFault::Absent);
    }
    let name = Name::new(alloc, name)?;
    match lines_under(alloc, core, &name)? {
        Some(text) => Ok(text),
        None => Err(DriverFault::Absent),
    }
}

/// The report of a book, of this version.
pub fn report_text(
    alloc: Global,
    book: &Book<Sequence<NamedTable>>,
    version: ReportVersion,
) -> Result<Vec<u8>, AllocError>
    ensures { IfOk result (λ text. text.items ≡ text_of version (book_seen book.now)) }
{
    let mut writer = Watched::new(Vec::new(alloc));
    match write_book(alloc, book, version, &mut writer) {
        Ok(()) => Ok(writer.into_inner()),
        Err(_) => Err(AllocError),
    }
}
