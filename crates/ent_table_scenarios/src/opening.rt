//! The tables of an opening, with their rows.
ghost use Rattle.std.specs.Prelude.{◌≡◌, ◌<◌, All, IfOk, length};
ghost use Rattle.ent_value.specs.Value.{kinds_of};

use crate::table::shared_table;
use anyhow::{Result, bail};
use ent_form::{Catalogue, TableSchema, opening_rows};
use ent_rel::Table;
use ent_scenario_files::words::{are_same, kinds_of};
use ent_tree::Opening;
use ent_value::{Kind, Row};
use std::alloc::{AllocError, Global};
use std::sync::Arc;

/// The rows, where each is of these kinds.
fn rows_of_kinds(alloc: Global, rows: Vec<Row>, kinds: &[Kind]) -> Result<Vec<Row>>
    ensures { IfOk result (λ checked. All (λ row. kinds_of row ≡ kinds.now) checked.items) }
{
    let mut checked = Vec::new(alloc);
    for row in rows {
        let found = kinds_of(alloc, &row)?;
        if !are_same(found.as_slice(), kinds) {
            bail!("this row has other kinds");
        }
        checked.push(row)?;
    }
    Ok(checked)
}

fn column_kinds(alloc: Global, schema: &TableSchema) -> Result<Vec<Kind>, AllocError> {
    let mut kinds = Vec::new(alloc);
    for column in schema.columns.as_slice() {
        kinds.push(column.kind)?;
    }
    Ok(kinds)
}

/// A table with its opening rows.
fn table(
    alloc: Global,
    catalogue: &Catalogue,
    number: usize,
    schema: &TableSchema,
    opening: &Opening,
) -> Result<Arc<Table>>
    requires { number < length catalogue.now.tables }
{
    let kinds = column_kinds(alloc, schema)?;
    let rows = opening_rows(alloc, catalogue, number, opening)?;
    let rows = rows_of_kinds(alloc, rows, kinds.as_slice())?;
    shared_table(alloc, kinds, rows)
}

/// The tables that an opening declares.
pub(crate) fn tables(
    alloc: Global,
    catalogue: &Catalogue,
    opening: &Opening,
) -> Result<Vec<Arc<Table>>> {
    let mut found = Vec::new(alloc);
    for (number, schema) in catalogue.tables.as_slice().iter().enumerate() {
        found.push(table(alloc, catalogue, number, schema, opening)?)?;
    }
    Ok(found)
}
