//! The whole text of a report.
ghost use Rattle.std.specs.Prelude.{◌≡◌, IfOk};
ghost use Rattle.ent_book.specs.Report.{report_text};
ghost use Rattle.ent_book.specs.Report2.{report_2_text};
ghost use Rattle.ent_book.specs.Tables.{book_seen};

use crate::grounding::append_grounded_joints;
use crate::joint::append_joints;
use crate::opening::append_opening;
use crate::script::append_scripts;
use crate::table::{NamedTable, append_tables, names_by_bytes};
use crate::transaction::append_transactions;
use ent_semantics::Book;
use ent_value::Sequence;
use std::alloc::{AllocError, Global};

/// Version 1: fates, answers, joint answers, tables.
pub(crate) fn report(
    alloc: Global,
    book: &Book<Sequence<NamedTable>>,
) -> Result<Vec<u8>, AllocError>
    ensures { IfOk result (λ text. text.items ≡ report_text (book_seen book.now)) }
{
    let mut out = Vec::new(alloc);
    out.extend_from_slice(b"report 1\n")?;
    append_transactions(
        alloc,
        &mut out,
        book.journal.as_slice(),
        book.fates.as_slice(),
    )?;
    append_joints(alloc, &mut out, book.joint_answers.as_slice())?;
    let names = names_by_bytes(alloc, &book.opening)?;
    append_tables(alloc, &mut out, names.as_slice(), book.database.as_slice())?;
    out.extend_from_slice(b"end\n")?;
    Ok(out)
}

/// Version 2: the opening and the scripts too, and a grounding for each member.
pub(crate) fn report_2(
    alloc: Global,
    book: &Book<Sequence<NamedTable>>,
) -> Result<Vec<u8>, AllocError>
    ensures { IfOk result (λ text. text.items ≡ report_2_text (book_seen book.now)) }
{
    let mut out = Vec::new(alloc);
    let names = names_by_bytes(alloc, &book.opening)?;
    let scripts = book.scripts.as_slice();
    out.extend_from_slice(b"report 2\n")?;
    append_opening(alloc, &mut out, &book.opening, names.as_slice())?;
    append_scripts(alloc, &mut out, scripts)?;
    append_transactions(
        alloc,
        &mut out,
        book.journal.as_slice(),
        book.fates.as_slice(),
    )?;
    append_grounded_joints(alloc, &mut out, scripts, book.joint_answers.as_slice())?;
    append_tables(alloc, &mut out, names.as_slice(), book.database.as_slice())?;
    out.extend_from_slice(b"end\n")?;
    Ok(out)
}
