//! Tables made of declarations and opening rows.
ghost use Rattle.std.specs.Prelude.{◌≡◌, None, Some, IfOk, map, slice_get};
ghost use Rattle.std.specs.Arc.{arc_value};
ghost use Rattle.ent_lists.specs.Sets as set;
ghost use Rattle.ent_value.specs.Value.{row_cmp};
ghost use Rattle.ent_semantics.specs.Database.{rows_named};
ghost use Rattle.ent_form.specs.Catalogue.{schemas_of};
ghost use Rattle.ent_form.specs.OpeningFault.{opening_fault};
ghost use Rattle.ent_form.specs.TableKinds.{column_kinds};
ghost use Rattle.ent_form.specs.Opened.{opening_tables};

use ent_form::{Catalogue, ColumnSchema, TableSchema, opening_rows, opening_tables_are_kinded};
use ent_rel::{Table, TableFull};
use ent_tree::Opening;
use ent_value::{Kind, Refusal};
use std::alloc::{AllocError, Global};
use std::sync::Arc;

/// The tables of an opening without a fault, in the order of their declaration, each with its rows.
pub fn load_tables(
    alloc: Global,
    catalogue: &Catalogue,
    opening: &Opening,
) -> Result<Vec<Arc<Table>>, AllocError>
    requires tables { catalogue.now.tables ≡ schemas_of opening.now.tables }
    requires formed { opening_fault opening.now ≡ None }
    ensures rows { IfOk result (λ tables.
        map (λ table. table.rows) (map arc_value tables.items) ≡ opening_tables opening.now) }
    ensures kinds { IfOk result (λ tables.
        map (λ table. table.kinds) (map arc_value tables.items) ≡ map column_kinds catalogue.now.tables) }
{
    let mut tables = Vec::with_capacity(alloc, catalogue.tables.len())?;
    for (number, schema) in catalogue.tables.as_slice().iter().enumerate() {
        let table = load_table(alloc, catalogue, number, schema, opening)?;
        tables.push(Arc::new(alloc, table)?)?;
    }
    Ok(tables)
}

/// The table of a number with its opening rows.
fn load_table(
    alloc: Global,
    catalogue: &Catalogue,
    number: usize,
    schema: &TableSchema,
    opening: &Opening,
) -> Result<Table, AllocError>
    requires tables { catalogue.now.tables ≡ schemas_of opening.now.tables }
    requires formed { opening_fault opening.now ≡ None }
    requires number { slice_get catalogue.now.tables number ≡ Some schema.now }
    ensures rows { IfOk result (λ table.
        table.rows ≡ set.from_list {R = row_cmp} (rows_named opening.now schema.now.name)) }
    ensures kinds { IfOk result (λ table. table.kinds ≡ column_kinds schema.now) }
{
    // A law: the rows have the kinds of the table's columns.
    opening_tables_are_kinded();
    // Asked for its bound alone: an input has no more opening rows than a table may have.
    let _count = opening.rows.len();
    let kinds = kinds_of(alloc, schema.columns.as_slice())?;
    let rows = opening_rows(alloc, catalogue, number, opening)?;
    match Table::load(alloc, kinds, rows) {
        Ok(table) => Ok(table),
        Err(refused) => match refused.refusal {
            Refusal::Memory => Err(AllocError),
            // So no table is too full.
            Refusal::Fault(TableFull) => unreachable!(),
        },
    }
}

fn kinds_of(alloc: Global, columns: &[ColumnSchema]) -> Result<Vec<Kind>, AllocError>
    ensures { IfOk result (λ kinds. kinds.items ≡ map (λ column. column.kind) columns.now) }
{
    let mut kinds = Vec::with_capacity(alloc, columns.len())?;
    for column in columns {
        kinds.push(column.kind)?;
    }
    Ok(kinds)
}
