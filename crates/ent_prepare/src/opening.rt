//! An opening with rows that are given.
ghost use Rattle.std.specs.Prelude.{◌≡◌, ◌≤◌, ◌+◌, ◌++◌, IfOk, length, map};
ghost use Rattle.ent_tree.specs.declared.limits.TheConstants.{MOST_OPENING_ROWS, MOST_PARTS};
ghost use Rattle.ent_prepare.specs.Given.{literal_at, opening_row, opening_rows, with_rows};

use crate::row::GivenRow;
use crate::value::GivenValue;
use ent_tree::{Identifier, Literal, MOST_OPENING_ROWS, MOST_PARTS, Opening, OpeningRow};
use ent_value::{Limited, Value};
use std::alloc::{AllocError, Global};
use std::mem::replace;

/// A value of the row of this number.
fn literal_at(alloc: Global, number: usize, value: &Value) -> Result<Literal, AllocError>
    ensures { IfOk result (λ literal. literal ≡ literal_at number value.now) }
{
    Ok(Literal {
        value: value.copy(alloc)?,
        place: number,
    })
}

/// The values of the row of this number.
fn literals_at(
    alloc: Global,
    number: usize,
    values: &[GivenValue],
) -> Result<Limited<Literal, MOST_PARTS>, AllocError>
    requires { length values.now ≤ MOST_PARTS }
    ensures { IfOk result (λ literals. literals ≡ map (literal_at number) values.now) }
{
    let mut literals = Limited::with_capacity(alloc, values.len())?;
    for value in values {
        literals.push(literal_at(alloc, number, value.get())?)?;
    }
    Ok(literals)
}

/// A row as an opening has it, under this number.
fn opening_row(alloc: Global, number: usize, row: &GivenRow) -> Result<OpeningRow, AllocError>
    ensures { IfOk result (λ made. made ≡ opening_row number row.now) }
{
    // Asked for its bound alone.
    let _count = row.values.len();
    Ok(OpeningRow {
        table: Identifier {
            name: row.table.copy(alloc)?,
            place: number,
        },
        place: number,
        values: literals_at(alloc, number, row.values.as_slice())?,
    })
}

/// Rows as an opening has them, in order.
fn opening_rows(
    alloc: Global,
    rows: &[GivenRow],
) -> Result<Limited<OpeningRow, MOST_OPENING_ROWS>, AllocError>
    requires { length rows.now ≤ MOST_OPENING_ROWS }
    ensures { IfOk result (λ made. made ≡ opening_rows 0 rows.now) }
{
    let mut made = Limited::with_capacity(alloc, rows.len())?;
    for (number, row) in rows.iter().enumerate() {
        made.push(opening_row(alloc, number, row)?)?;
    }
    Ok(made)
}

/// Rows, and others behind them.
fn joined(
    first: Limited<OpeningRow, MOST_OPENING_ROWS>,
    others: Limited<OpeningRow, MOST_OPENING_ROWS>,
) -> Result<Limited<OpeningRow, MOST_OPENING_ROWS>, AllocError>
    requires { length first + length others ≤ MOST_OPENING_ROWS }
    ensures { IfOk result (λ all. all ≡ first ++ others) }
{
    let mut all = first;
    for row in others.into_vec() {
        all.push(row)?;
    }
    Ok(all)
}

/// The same opening, with these rows behind its own. Their faults come after all others of the opening.
pub fn with_rows(alloc: Global, opening: Opening, rows: &[GivenRow]) -> Result<Opening, AllocError>
    requires { length opening.rows + length rows.now ≤ MOST_OPENING_ROWS }
    ensures { IfOk result (λ made. made ≡ with_rows rows.now opening) }
{
    let mut made = opening;
    let given = opening_rows(alloc, rows)?;
    let own = replace(&mut made.rows, Limited::new(alloc));
    made.rows = joined(own, given)?;
    Ok(made)
}
