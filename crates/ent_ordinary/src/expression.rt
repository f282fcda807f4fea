//! What expressions are worth.
ghost use Rattle.std.specs.Prelude.{◌≡◌, ◌+ℤ◌, ◌-ℤ◌};
ghost use Rattle.ent_value.specs.Refusal.{Gives};
ghost use Rattle.ent_semantics.specs.Term.{number_of, in_64_bits, expression_value};
ghost use Rattle.ent_ordinary.specs.Worth.{itself, worth_over};
ghost use Rattle.ent_ordinary.specs.ExpressionWorth.{there_or_overflow};

use crate::operand_value;
use ent_semantics::{Failure, Operand};
use ent_tree::Expression;
use ent_value::{Refusal, Value};
use std::alloc::Global;

/// The number that a value is; a text, which is of the wrong kind for a sum or a difference, counts as 0.
fn number_of(value: &Value) -> i64
    ensures { result ≡ number_of value.now }
{
    match value {
        Value::Int(number) => *number,
        Value::Text(_) => 0,
    }
}

fn sum(left: &Value, right: &Value) -> Result<Value, Refusal<Failure>>
    ensures { Gives (λ value. value) result
        (there_or_overflow (in_64_bits (number_of left.now +ℤ number_of right.now))) }
{
    match number_of(left).checked_add(number_of(right)) {
        Some(number) => Ok(Value::Int(number)),
        None => Err(Refusal::Fault(Failure::Overflow)),
    }
}

fn difference(left: &Value, right: &Value) -> Result<Value, Refusal<Failure>>
    ensures { Gives (λ value. value) result
        (there_or_overflow (in_64_bits (number_of left.now -ℤ number_of right.now))) }
{
    match number_of(left).checked_sub(number_of(right)) {
        Some(number) => Ok(Value::Int(number)),
        None => Err(Refusal::Fault(Failure::Overflow)),
    }
}

/// What an expression over values is worth.
pub(crate) fn known_expression(
    alloc: Global,
    expression: &Expression<Value>,
) -> Result<Value, Refusal<Failure>>
    ensures { Gives (λ value. value) result (there_or_overflow (expression_value itself expression.now)) }
{
    match expression {
        Expression::Single(value) => Ok(value.copy(alloc)?),
        Expression::Sum(left, right) => sum(left, right.get()),
        Expression::Difference(left, right) => difference(left, right.get()),
    }
}

/// What an expression is worth over a row.
pub(crate) fn operand_expression(
    alloc: Global,
    row: &[Value],
    expression: &Expression<Operand<Value>>,
) -> Result<Value, Refusal<Failure>>
    ensures { Gives (λ value. value) result
        (there_or_overflow (expression_value (worth_over row.now) expression.now)) }
{
    let none = Value::Int(0);
    match expression {
        Expression::Single(term) => Ok(operand_value(row, term, &none).copy(alloc)?),
        Expression::Sum(left, right) => sum(
            operand_value(row, left, &none),
            operand_value(row, right.get(), &none),
        ),
        Expression::Difference(left, right) => difference(
            operand_value(row, left, &none),
            operand_value(row, right.get(), &none),
        ),
    }
}
