//! What the tests of a WHERE say of the first columns of a source.
ghost use Rattle.std.specs.Prelude.{◌≡◌, ◌++◌, IfOk, IfSome, IsTrue, List, length, slice_index_or, take};
ghost use Rattle.std.specs.Bool.{OnTrue};
ghost use Rattle.ent_value.specs.Value.{kind_of, kinds_of};
ghost use Rattle.ent_value.specs.declared.value.Value.{Value as Held};
ghost use Rattle.ent_rel.specs.First.{has_first};
ghost use Rattle.ent_semantics.specs.Selection.{holds, meets};
ghost use Rattle.ent_semantics.specs.Term.{no_value};
ghost use Rattle.ent_ordinary.specs.Worth.{worth_over};

use crate::term::operand_there;
use ent_semantics::Operand;
use ent_tree::{Comparison, Test};
use ent_value::{Kind, Value};
use std::alloc::{AllocError, Global};

/// The known values that tests of equality want in the first columns of a source whose rows stand behind a front, from
/// the first column up to one for which there is none. Each row of these kinds with which a combination meets the tests
/// begins with them.
pub fn first_values(
    alloc: Global,
    front: &[Value],
    tests: &[Test<Operand<Value>>],
    kinds: &[Kind],
) -> Result<Vec<Value>, AllocError>
    ensures kinds { IfOk result (λ values. kinds_of values.items ≡ take (length values.items) kinds.now) }
    ensures first { IfOk result (λ values. (row others : List Held) → kinds_of row ≡ kinds.now
        → IsTrue (meets worth_over tests.now ((front.now ++ row) ++ others))
        → IsTrue (has_first values.items row)) }
{
    let mut values = Vec::new(alloc);
    for (column, kind) in kinds.iter().enumerate() {
        match wanted_value(front, tests, column, *kind) {
            Some(value) => values.push(value.copy(alloc)?)?,
            None => return Ok(values),
        }
    }
    Ok(values)
}

/// The known value of this kind that a test of equality wants in the column of this number behind a front.
fn wanted_value<'a>(
    front: &'a [Value],
    tests: &'a [Test<Operand<Value>>],
    column: usize,
    kind: Kind,
) -> Option<&'a Value>
    ensures kind { IfSome result (λ value. kind_of value.now ≡ kind) }
    ensures wanted { IfSome result (λ value. (rest : List Held)
        → IsTrue (meets worth_over tests.now (front.now ++ rest))
        → slice_index_or rest column no_value ≡ value.now) }
{
    for test in tests {
        if let Some(value) = value_of(front, test, column, kind) {
            return Some(value);
        }
    }
    None
}

/// The known value of this kind that a test wants in a column behind a front.
fn value_of<'a>(
    front: &'a [Value],
    test: &'a Test<Operand<Value>>,
    column: usize,
    kind: Kind,
) -> Option<&'a Value>
    ensures kind { IfSome result (λ value. kind_of value.now ≡ kind) }
    ensures wanted { IfSome result (λ value. (rest : List Held)
        → IsTrue (holds (worth_over (front.now ++ rest)) test.now)
        → slice_index_or rest column no_value ≡ value.now) }
{
    let value = equal_side(front, test, column)?;
    if value.kind() == kind {
        return Some(value);
    }
    None
}

/// The known side of a test of equality whose other side is a column behind a front.
fn equal_side<'a>(
    front: &'a [Value],
    test: &'a Test<Operand<Value>>,
    column: usize,
) -> Option<&'a Value>
    ensures { IfSome result (λ value. (rest : List Held)
        → IsTrue (holds (worth_over (front.now ++ rest)) test.now)
        → slice_index_or rest column no_value ≡ value.now) }
{
    if test.comparison != Comparison::Equal {
        return None;
    }
    if is_column_behind(front, &test.left, column) {
        return operand_there(front, &test.right);
    }
    if is_column_behind(front, &test.right, column) {
        return operand_there(front, &test.left);
    }
    None
}

/// Whether an operand is the column of this number behind a front.
fn is_column_behind(front: &[Value], operand: &Operand<Value>, column: usize) -> bool
    ensures { OnTrue result ((rest : List Held)
        → worth_over (front.now ++ rest) operand.now ≡ slice_index_or rest column no_value) }
{
    match operand {
        Operand::Known(_) => false,
        Operand::Column(number) => *number >= front.len() && *number - front.len() == column,
    }
}
