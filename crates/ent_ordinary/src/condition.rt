//! Conditions over a row.
ghost use Rattle.std.specs.Prelude.{◌≡◌};
ghost use Rattle.ent_semantics.specs.Selection.{compares, holds, meets};
ghost use Rattle.ent_ordinary.specs.Worth.{worth_over};

use crate::term::operand_value;
use ent_semantics::Operand;
use ent_tree::{Comparison, Test};
use ent_value::Value;
use std::cmp::Ordering;

/// Whether two values in this order compare so.
pub fn compares(comparison: Comparison, order: Ordering) -> bool
    ensures { result ≡ compares comparison order }
{
    match comparison {
        Comparison::Equal => order.is_eq(),
        Comparison::NotEqual => order.is_ne(),
        Comparison::Less => order.is_lt(),
        Comparison::LessOrEqual => order.is_le(),
        Comparison::Greater => order.is_gt(),
        Comparison::GreaterOrEqual => order.is_ge(),
    }
}

fn holds(test: &Test<Operand<Value>>, row: &[Value]) -> bool
    ensures { result ≡ holds (worth_over row.now) test.now }
{
    let none = Value::Int(0);
    let left = operand_value(row, &test.left, &none);
    let right = operand_value(row, &test.right, &none);
    compares(test.comparison, left.cmp(right))
}

/// Whether a row meets every test.
pub(crate) fn meets(tests: &[Test<Operand<Value>>], row: &[Value]) -> bool
    ensures { result ≡ meets worth_over tests.now row.now }
{
    tests.iter().all(|test| holds(test, row))
}
