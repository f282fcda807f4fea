//! Rows that statements put in.
ghost use Rattle.std.specs.Prelude.{◌≡◌, IfOk};
ghost use Rattle.ent_value.specs.Refusal.{Gives};
ghost use Rattle.ent_ordinary.specs.ExpressionWorth.{image_of, there_or_overflow};

use crate::expression::operand_expression;
use ent_semantics::{Failure, Operand};
use ent_tree::Expression;
use ent_value::{Refusal, Row, Value};
use std::alloc::{AllocError, Global};

/// The row of some values.
pub(crate) fn row_of(alloc: Global, values: &[Value]) -> Result<Row, AllocError>
    ensures { IfOk result (λ row. row ≡ values.now) }
{
    let mut row = Vec::with_capacity(alloc, values.len())?;
    for value in values {
        row.push(value.copy(alloc)?)?;
    }
    Ok(Row::from_vec(row))
}

/// A row with each column changed to its expression's value, all being worked out over the row as it was; an overflow
/// where one of them is.
pub(crate) fn image_row(
    alloc: Global,
    image: &[Expression<Operand<Value>>],
    row: &[Value],
) -> Result<Row, Refusal<Failure>>
    ensures { Gives (λ new. new) result (there_or_overflow (image_of image.now row.now)) }
{
    let mut values = Vec::with_capacity(alloc, image.len())?;
    for expression in image {
        values.push(operand_expression(alloc, row, expression)?)?;
    }
    Ok(Row::from_vec(values))
}
