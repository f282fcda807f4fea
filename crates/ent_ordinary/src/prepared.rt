//! Tests of a WHERE, made ready once for all rows of a source.
ghost use Rattle.std.specs.Prelude.{◌≡◌, ◌++◌, IfOk, List, slice_get, slice_index_or};
ghost use Rattle.ent_value.specs.declared.value.Value.{Value as Held};
ghost use Rattle.ent_value.specs.Value.{value_cmp};
ghost use Rattle.ent_semantics.specs.Selection.{compares, holds, meets};
ghost use Rattle.ent_semantics.specs.Term.{no_value};
ghost use Rattle.ent_ordinary.specs.Early.{may_hold, may_meet, value_there};
ghost use Rattle.ent_ordinary.specs.Prepared.{prepared_value, prepared_holds, prepared_meets};
ghost use Rattle.ent_ordinary.specs.Prepared.{prepared_there, prepared_may_hold, prepared_may_meet};
ghost use Rattle.ent_ordinary.specs.Worth.{worth_over};

use crate::condition::compares;
use ent_rel::{Cell, KnownValue, StoredRow};
use ent_semantics::Operand;
use ent_tree::{Comparison, Test};
use ent_value::{Sequence, Value};
use std::alloc::{AllocError, Global};

/// An operand: a value that is known, in the form in which it compares with cells, or the number of a column of the
/// source.
#[derive(Drop)]
enum PreparedOperand {
    Known(KnownValue),
    Column(usize),
}

/// A test: its two sides, and how they are compared.
#[derive(Drop)]
struct PreparedTest {
    left: PreparedOperand,
    comparison: Comparison,
    right: PreparedOperand,
}

/// Tests that each row of a source is to meet.
#[derive(Drop)]
pub struct PreparedTests {
    tests: Sequence<PreparedTest>,
    /// What stands for a column that isn't there.
    none: KnownValue,
}

impl PreparedTests {
    /// The tests for the rows behind a front, whose values are known.
    pub fn new(
        alloc: Global,
        front: &[Value],
        tests: &[Test<Operand<Value>>],
    ) -> Result<Self, AllocError>
        ensures meets { IfOk result (λ prepared. (row : List Held)
            → prepared_meets prepared row ≡ meets worth_over tests.now (front.now ++ row)) }
        ensures may_meet { IfOk result (λ prepared. (row : List Held)
            → prepared_may_meet prepared row ≡ may_meet tests.now (front.now ++ row)) }
    {
        let mut prepared = Sequence::new(alloc);
        for test in tests {
            prepared.push(prepared_test(alloc, front, test)?)?;
        }
        let none = KnownValue::of(alloc, &Value::Int(0))?;
        Ok(PreparedTests {
            tests: prepared,
            none,
        })
    }

    /// Whether a row meets every test. It takes no memory.
    pub fn meets(&self, row: &StoredRow<'_>) -> bool
        ensures { result ≡ prepared_meets self.now row.now }
    {
        self.tests.iter().all(|test| holds(test, &self.none, row))
    }

    /// Whether no test fails over a row, whatever follows it. It takes no memory.
    pub fn may_meet(&self, row: &StoredRow<'_>) -> bool
        ensures { result ≡ prepared_may_meet self.now row.now }
    {
        self.tests.iter().all(|test| may_hold(test, row))
    }
}

fn prepared_test(
    alloc: Global,
    front: &[Value],
    test: &Test<Operand<Value>>,
) -> Result<PreparedTest, AllocError>
    ensures holds { IfOk result (λ prepared. (row : List Held)
        → prepared_holds no_value row prepared ≡ holds (worth_over (front.now ++ row)) test.now) }
    ensures may_hold { IfOk result (λ prepared. (row : List Held)
        → prepared_may_hold row prepared ≡ may_hold (front.now ++ row) test.now) }
{
    Ok(PreparedTest {
        left: prepared_operand(alloc, front, &test.left)?,
        comparison: test.comparison,
        right: prepared_operand(alloc, front, &test.right)?,
    })
}

fn prepared_operand(
    alloc: Global,
    front: &[Value],
    operand: &Operand<Value>,
) -> Result<PreparedOperand, AllocError>
    ensures value { IfOk result (λ prepared. (row : List Held)
        → prepared_value no_value row prepared ≡ worth_over (front.now ++ row) operand.now) }
    ensures there { IfOk result (λ prepared. (row : List Held)
        → prepared_there row prepared ≡ value_there (front.now ++ row) operand.now) }
{
    match operand {
        Operand::Known(value) => Ok(PreparedOperand::Known(KnownValue::of(alloc, value)?)),
        Operand::Column(number) => match front.get(*number) {
            Some(value) => Ok(PreparedOperand::Known(KnownValue::of(alloc, value)?)),
            None => Ok(PreparedOperand::Column(*number - front.len())),
        },
    }
}

fn holds(test: &PreparedTest, none: &KnownValue, row: &StoredRow<'_>) -> bool
    ensures { result ≡ prepared_holds none.now row.now test.now }
{
    let left = operand_cell(&test.left, none, row);
    let right = operand_cell(&test.right, none, row);
    cells_compare(test.comparison, left, right)
}

/// Whether two cells compare so. Whether they are equal shows sooner than which is less.
#[inline(always)]
fn cells_compare(comparison: Comparison, left: Cell<'_>, right: Cell<'_>) -> bool
    ensures { result ≡ compares comparison (value_cmp left.entry right.entry) }
{
    match comparison {
        Comparison::Equal => left == right,
        Comparison::NotEqual => left != right,
        _ => compares(comparison, left.cmp(&right)),
    }
}

/// Whether a test holds over a row, or speaks of a column behind it.
fn may_hold(test: &PreparedTest, row: &StoredRow<'_>) -> bool
    ensures { result ≡ prepared_may_hold row.now test.now }
{
    if let Some(left) = cell_there(&test.left, row) {
        if let Some(right) = cell_there(&test.right, row) {
            return cells_compare(test.comparison, left, right);
        }
    }
    true
}

/// The value of an operand in a row, where it stands; `none`, where the row has no such column.
#[inline(always)]
fn operand_cell<'a>(
    operand: &'a PreparedOperand,
    none: &'a KnownValue,
    row: &'a StoredRow<'_>,
) -> Cell<'a>
    ensures { result ≡ prepared_value none.now row.now operand.now }
{
    match operand {
        PreparedOperand::Known(value) => value.as_cell(),
        PreparedOperand::Column(number) => column_cell(*number, none, row),
    }
}

/// The value of a column in a row, where it stands; `none`, where the row has no such column.
#[inline(always)]
fn column_cell<'a>(number: usize, none: &'a KnownValue, row: &'a StoredRow<'_>) -> Cell<'a>
    ensures { result ≡ slice_index_or row.now number none.now }
{
    if number < row.len() {
        return row.cell(number);
    }
    none.as_cell()
}

/// The value of an operand in a row, where it stands, if the row has it.
fn cell_there<'a>(operand: &'a PreparedOperand, row: &'a StoredRow<'_>) -> Option<Cell<'a>>
    ensures { result ≡ prepared_there row.now operand.now }
{
    match operand {
        PreparedOperand::Known(value) => Some(value.as_cell()),
        PreparedOperand::Column(number) => column_there(*number, row),
    }
}

/// The value of a column in a row, where it stands, if the row has it.
fn column_there<'a>(number: usize, row: &'a StoredRow<'_>) -> Option<Cell<'a>>
    ensures { result ≡ slice_get row.now number }
{
    if number < row.len() {
        return Some(row.cell(number));
    }
    None
}
