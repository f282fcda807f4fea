//! Tables under their names, and their rows as an opening has them.
ghost use Rattle.std.specs.Prelude.{◌≡◌, ◌≤◌, ◌+◌, ◌++◌, OnOk, length};
ghost use Rattle.ent_lists.specs.Sets as set;
ghost use Rattle.ent_semantics.specs.Kinds.{RowsHaveKinds};
ghost use Rattle.ent_form.specs.Catalogue.{table_schema};
ghost use Rattle.ent_form.specs.TableKinds.{column_kinds};
ghost use Rattle.ent_renewal.specs.Renewal.{rows_together};
ghost use Rattle.ent_renewal.specs.Rows.{table_rows};

use crate::named::TablesByName;
use crate::row::push_rows;
use ent_tree::{Create, MOST_OPENING_ROWS, MOST_TABLES, OpeningRow};
use ent_value::{Limited, MOST_ROWS, Name};
use std::alloc::{AllocError, Global};

/// How many rows stand under a name.
fn rows_under<T: TablesByName>(tables: &T, name: &Name) -> usize
    ensures rows { result ≡ set.len (T.database tables.now name.now) }
    ensures limit { result ≤ MOST_ROWS }
{
    match tables.table_named(name) {
        Some(table) => table.len(),
        None => 0,
    }
}

/// How many rows stand in declared tables together.
pub(crate) fn rows_together<T: TablesByName>(declared: &[Create], tables: &T) -> usize
    requires { length declared.now ≤ MOST_TABLES }
    ensures { result ≡ rows_together declared.now (T.database tables.now) }
{
    let mut total = 0;
    for create in declared {
        total += rows_under(tables, &create.name.name);
    }
    total
}

/// Puts the rows of a declared table behind those of other tables.
pub(crate) fn push_table<T: TablesByName>(
    alloc: Global,
    rows: &mut Limited<OpeningRow, MOST_OPENING_ROWS>,
    create: &Create,
    tables: &T,
) -> Result<(), AllocError>
    requires room { length rows.old + set.len (T.database tables.now create.now.name.name) ≤ MOST_OPENING_ROWS }
    requires kinds { RowsHaveKinds (column_kinds (table_schema create.now))
        (T.database tables.now create.now.name.name) }
    ensures { OnOk result (rows.new ≡ rows.old ++ table_rows (T.database tables.now) create.now) }
{
    // Asked for its bound alone: a row has as many values as its table has columns.
    let _count = create.columns.len();
    match tables.table_named(&create.name.name) {
        Some(table) => {
            let present = table.rows(alloc)?;
            push_rows(alloc, rows, &create.name, present.as_slice())
        }
        None => Ok(()),
    }
}
