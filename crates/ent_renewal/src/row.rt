//! Rows of tables as an opening has them.
ghost use Rattle.std.specs.Prelude.{◌≡◌, ◌≤◌, ◌+◌, ◌++◌, All, IfOk, OnOk, length, map};
ghost use Rattle.ent_renewal.specs.Rows.{literal_of, opening_row};

use ent_tree::{Duplicate, Identifier, Literal, MOST_OPENING_ROWS, MOST_PARTS, OpeningRow};
use ent_value::{Limited, Row, Value};
use std::alloc::{AllocError, Global};

fn literal_of(alloc: Global, value: &Value) -> Result<Literal, AllocError>
    ensures { IfOk result (λ literal. literal ≡ literal_of value.now) }
{
    Ok(Literal {
        value: value.copy(alloc)?,
        place: 0,
    })
}

fn literals_of(alloc: Global, values: &[Value]) -> Result<Limited<Literal, MOST_PARTS>, AllocError>
    requires { length values.now ≤ MOST_PARTS }
    ensures { IfOk result (λ literals. literals ≡ map literal_of values.now) }
{
    let mut literals = Limited::with_capacity(alloc, values.len())?;
    for value in values {
        literals.push(literal_of(alloc, value)?)?;
    }
    Ok(literals)
}

/// A row of the table that this identifier names.
fn opening_row(alloc: Global, table: &Identifier, row: &Row) -> Result<OpeningRow, AllocError>
    requires { length row.now ≤ MOST_PARTS }
    ensures { IfOk result (λ made. made ≡ opening_row table.now row.now) }
{
    Ok(OpeningRow {
        table: table.copy(alloc)?,
        place: 0,
        values: literals_of(alloc, row.values())?,
    })
}

/// Puts rows of the table that this identifier names behind those of other tables.
pub(crate) fn push_rows(
    alloc: Global,
    rows: &mut Limited<OpeningRow, MOST_OPENING_ROWS>,
    table: &Identifier,
    more: &[Row],
) -> Result<(), AllocError>
    requires room { length rows.old + length more.now ≤ MOST_OPENING_ROWS }
    requires widths { All (λ row. length row ≤ MOST_PARTS) more.now }
    ensures { OnOk result (rows.new ≡ rows.old ++ map (opening_row table.now) more.now) }
{
    for row in more {
        rows.push(opening_row(alloc, table, row)?)?;
    }
    Ok(())
}
