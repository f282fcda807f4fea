//! Rows that a SELECT joins and shows.
ghost use Rattle.std.specs.Prelude.{◌≡◌, ◌++◌, IfOk, map, slice_index_or};
ghost use Rattle.ent_semantics.specs.Term.{no_value};
ghost use Rattle.ent_ordinary.specs.Worth.{worth_over};

use crate::term::operand_value;
use ent_rel::StoredRow;
use ent_semantics::Operand;
use ent_value::{Row, Value};
use std::alloc::{AllocError, Global};

/// The values of a front and those of a row behind it, in one row.
pub(crate) fn joined(alloc: Global, front: &[Value], row: &StoredRow<'_>) -> Result<Row, AllocError>
    ensures { IfOk result (λ joined. joined ≡ front.now ++ row.now) }
{
    let mut values = Vec::new(alloc);
    for value in front {
        values.push(value.copy(alloc)?)?;
    }
    for column in 0..row.len() {
        values.push(row.cell(column).to_value(alloc)?)?;
    }
    Ok(Row::from_vec(values))
}

/// What items show of a row.
pub(crate) fn item_row(
    alloc: Global,
    items: &[Operand<Value>],
    row: &[Value],
) -> Result<Row, AllocError>
    ensures { IfOk result (λ shown. shown ≡ map (worth_over row.now) items.now) }
{
    let none = Value::Int(0);
    let mut values = Vec::with_capacity(alloc, items.len())?;
    for item in items {
        values.push_reserved(operand_value(row, item, &none).copy(alloc)?);
    }
    Ok(Row::from_vec(values))
}

/// What items show of a front and a row behind it.
pub(crate) fn shown_row(
    alloc: Global,
    items: &[Operand<Value>],
    front: &[Value],
    row: &StoredRow<'_>,
) -> Result<Row, AllocError>
    ensures { IfOk result (λ shown. shown ≡ map (worth_over (front.now ++ row.now)) items.now) }
{
    let mut values = Vec::with_capacity(alloc, items.len())?;
    for item in items {
        values.push_reserved(shown_value(alloc, item, front, row)?);
    }
    Ok(Row::from_vec(values))
}

/// What an item shows of a front and a row behind it; a column that isn't there shows as 0.
fn shown_value(
    alloc: Global,
    item: &Operand<Value>,
    front: &[Value],
    row: &StoredRow<'_>,
) -> Result<Value, AllocError>
    ensures { IfOk result (λ value. value ≡ worth_over (front.now ++ row.now) item.now) }
{
    match item {
        Operand::Known(value) => value.copy(alloc),
        Operand::Column(number) => match front.get(*number) {
            Some(value) => value.copy(alloc),
            None => column_value(alloc, *number - front.len(), row),
        },
    }
}

/// The value of a column of a row; a column that isn't there shows as 0.
fn column_value(alloc: Global, number: usize, row: &StoredRow<'_>) -> Result<Value, AllocError>
    ensures { IfOk result (λ value. value ≡ slice_index_or row.now number no_value) }
{
    if number < row.len() {
        return row.cell(number).to_value(alloc);
    }
    Ok(Value::Int(0))
}
