//! Rows that are put in.
ghost use Rattle.std.specs.Prelude.{◌≡◌, ◌<◌, [], IfOk, length, slice_index_or};
ghost use Rattle.ent_value.specs.Kinds.{same_kind};
ghost use Rattle.ent_semantics.specs.Database.{rows_named};
ghost use Rattle.ent_form.specs.Catalogue.{names_of};
ghost use Rattle.ent_form.specs.OpeningFault.{literals_fault, row_fault, opening_row_fault, first_of};

use crate::catalogue::{Catalogue, ColumnSchema, TableSchema};
use crate::fault::FormFault;
use ent_tree::{Literal, Opening, OpeningRow};
use ent_value::{Kind, Row};
use std::alloc::{AllocError, Global};

pub(crate) fn same_kind(left: Kind, right: Kind) -> bool
    ensures { result ≡ same_kind left right }
{
    left == right
}

/// The first literal that isn't of its column's kind.
fn literals_fault(columns: &[ColumnSchema], literals: &[Literal]) -> Option<FormFault>
    ensures { result ≡ literals_fault columns.now literals.now }
{
    for (column, literal) in columns.iter().zip(literals) {
        if !same_kind(column.kind, literal.value.kind()) {
            return Some(FormFault::WrongKind(literal.place));
        }
    }
    None
}

/// What keeps a row out of a table: the number of its values, else the first value of another kind than its
/// column.
fn row_fault(table: &TableSchema, row: &OpeningRow) -> Option<FormFault>
    ensures { result ≡ row_fault table.now row.now }
{
    if row.values.len() != table.columns.len() {
        return Some(FormFault::Arity(row.place));
    }
    literals_fault(table.columns.as_slice(), row.values.as_slice())
}

/// What keeps an opening row out: its table, else what keeps it out of that table.
fn opening_row_fault(catalogue: &Catalogue, row: &OpeningRow) -> Option<FormFault>
    ensures { result ≡ opening_row_fault catalogue.now.tables row.now }
{
    match catalogue.table_named(&row.table.name) {
        Some((_, table)) => row_fault(table, row),
        None => Some(FormFault::NoTable(row.table.place)),
    }
}

/// The first fault of opening rows, from left to right.
pub(crate) fn rows_fault(catalogue: &Catalogue, rows: &[OpeningRow]) -> Option<FormFault>
    ensures { result ≡ first_of (opening_row_fault catalogue.now.tables) rows.now }
{
    for row in rows {
        if let Some(fault) = opening_row_fault(catalogue, row) {
            return Some(fault);
        }
    }
    None
}

/// The opening rows that name the table of this number, in the order of the input.
pub fn opening_rows(
    alloc: Global,
    catalogue: &Catalogue,
    table: usize,
    opening: &Opening,
) -> Result<Vec<Row>, AllocError>
    requires { table < length catalogue.now.tables }
    ensures { IfOk result (λ rows.
        rows.items ≡ rows_named opening.now (slice_index_or (names_of catalogue.now.tables) table [])) }
{
    let name = &catalogue.tables.as_slice()[table].name;
    let mut rows = Vec::new(alloc);
    for row in opening.rows.as_slice() {
        if row.table.name == *name {
            rows.push(row.row(alloc)?)?;
        }
    }
    Ok(rows)
}
