//! SELECT over all combinations of one row of each source.
//!
//! Sources are gone over one inside the other. Of each only the rows are read that begin with the values that tests of
//! equality want there, and those of the last one are read where they stand.
ghost use Rattle.std.specs.Prelude.{◌≡◌, [], ◌∷◌, ◌++◌, IfOk, OnOk, map};
ghost use Rattle.std.specs.List.{filter};
ghost use Rattle.ent_lists.specs.Sets as set;
ghost use Rattle.ent_rel.specs.Numbered.{relation_of};
ghost use Rattle.ent_semantics.specs.Selection.{meets, selection};
ghost use Rattle.ent_ordinary.specs.Combined.{combined, shown_of, AreNarrowed};
ghost use Rattle.ent_ordinary.specs.Prepared.{prepared_meets};
ghost use Rattle.ent_ordinary.specs.Tables.{rows_in, rows_listed};
ghost use Rattle.ent_ordinary.specs.Worth.{worth_over};

use crate::condition::meets;
use crate::first::first_values;
use crate::prepared::PreparedTests;
use crate::row::{item_row, joined, shown_row};
use ent_rel::{NumberedTable, RowCursor, Table, ascending};
use ent_semantics::{Operand, Select};
use ent_tree::Test;
use ent_value::{Row, Sequence, Value};
use std::alloc::{AllocError, Global};

/// Puts the item row of a whole combination behind those found, where it meets every test.
fn show(
    alloc: Global,
    select: &Select<Value>,
    row: &[Value],
    found: &mut Vec<Row>,
) -> Result<(), AllocError>
    ensures { OnOk result (found.new.items ≡ found.old.items
        ++ shown_of select.now.items select.now.tests (row.now ∷ [])) }
{
    if meets(select.tests.as_slice(), row) {
        found.push(item_row(alloc, select.items.as_slice(), row)?)?;
    }
    Ok(())
}

/// Puts what items show of a front and each row of a walk that meets every test behind what was found.
fn show_rows(
    alloc: Global,
    items: &[Operand<Value>],
    tests: &PreparedTests,
    front: &[Value],
    mut rows: RowCursor<'_>,
    found: &mut Vec<Row>,
) -> Result<(), AllocError>
    ensures { OnOk result (found.new.items ≡ found.old.items
        ++ map (λ row. map (worth_over (front.now ++ row)) items.now) (filter (prepared_meets tests.now) rows.entry)) }
{
    while let Some(row) = rows.next_row() {
        if tests.meets(&row) {
            if found.len() == found.capacity() {
                found.reserve(1)?;
            }
            found.push_reserved(shown_row(alloc, items, front, &row)?);
        }
    }
    Ok(())
}

/// The rows of a source with which a combination behind a front may meet every test, ascending: those that begin with
/// the values that tests of equality want there.
fn source_rows<'a>(
    alloc: Global,
    tests: &[Test<Operand<Value>>],
    front: &[Value],
    table: &'a Table,
) -> Result<RowCursor<'a>, AllocError>
    ensures { IfOk result (λ rows. AreNarrowed tests.now front.now table.now.rows rows) }
{
    let first = first_values(alloc, front, tests, table.kinds())?;
    if first.is_empty() {
        return Ok(table.cursor());
    }
    table.look_up(alloc, first.as_slice())
}

/// Puts the item rows of a front and a row of the last source behind those found.
fn search_last(
    alloc: Global,
    select: &Select<Value>,
    front: &[Value],
    table: &Table,
    found: &mut Vec<Row>,
) -> Result<(), AllocError>
    ensures { OnOk result (found.new.items ≡ found.old.items
        ++ shown_of select.now.items select.now.tests (combined front.now (set.ascending table.now.rows ∷ []))) }
{
    let tests = PreparedTests::new(alloc, front, select.tests.as_slice())?;
    let rows = source_rows(alloc, select.tests.as_slice(), front, table)?;
    show_rows(alloc, select.items.as_slice(), &tests, front, rows, found)
}

/// Puts the item rows of the combinations that begin with a front behind those found.
fn search(
    alloc: Global,
    select: &Select<Value>,
    front: &[Value],
    sources: &[NumberedTable],
    found: &mut Vec<Row>,
) -> Result<(), AllocError>
    ensures { OnOk result (found.new.items ≡ found.old.items ++ shown_of select.now.items select.now.tests
        (combined front.now (rows_listed (map relation_of sources.now)))) }
{
    match sources {
        [] => show(alloc, select, front, found),
        [source] => search_last(alloc, select, front, source.table(), found),
        [source, more @ ..] => {
            let tests = PreparedTests::new(alloc, front, select.tests.as_slice())?;
            let mut rows = source_rows(alloc, select.tests.as_slice(), front, source.table())?;
            while let Some(row) = rows.next_row() {
                if tests.may_meet(&row) {
                    let begun = joined(alloc, front, &row)?;
                    search(alloc, select, begun.values(), more, found)?;
                }
            }
            Ok(())
        }
    }
}

/// The result of a SELECT over its sources, in the order in which it names them: ascending, each row once.
pub fn all(
    alloc: Global,
    select: &Select<Value>,
    sources: &[NumberedTable],
) -> Result<Sequence<Row>, AllocError>
    ensures { IfOk result (λ rows. rows ≡ set.ascending
        (selection (meets worth_over select.now.tests) (λ row. map (worth_over row) select.now.items)
        (rows_in (map relation_of sources.now)))) }
{
    let mut found = Vec::new(alloc);
    search(alloc, select, &[], sources, &mut found)?;
    Ok(Sequence::from_vec(ascending(found)?))
}
