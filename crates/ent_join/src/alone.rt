//! Tests that read nothing but the columns of a tuple, and the rows that they refuse.
ghost use Rattle.std.specs.Prelude.{◌≡◌, ◌&&◌, IfOk};
ghost use Rattle.std.specs.List.{filter, list_all, list_any};
ghost use Rattle.std.specs.Option.{option_copied};
ghost use Rattle.ent_join.specs.Alone.{is_slot_of, is_test_of, may_hold_in, slot_in};
ghost use Rattle.ent_join.specs.Keyed.{is_class};

use crate::keyed::{is_class, slot_copy, value_under};
use ent_ordinary::compares;
use ent_plan::Slot;
use ent_tree::Test;
use ent_value::Value;
use std::alloc::{AllocError, Global};

/// The value of a slot, where a row of these columns has it.
fn slot_in<'a>(columns: &[Slot], row: &'a [Value], slot: &'a Slot) -> Option<&'a Value>
    ensures { option_copied result ≡ slot_in columns.now row.now slot.now }
{
    match slot {
        Slot::Fixed(value) => Some(value),
        Slot::Class(number) => value_under(*number, columns, row),
    }
}

/// Whether a test holds of a row of these columns, or reads what isn't there.
fn may_hold_in(columns: &[Slot], row: &[Value], test: &Test<Slot>) -> bool
    ensures { result ≡ may_hold_in columns.now row.now test.now }
{
    if let Some(left) = slot_in(columns, row, &test.left) {
        if let Some(right) = slot_in(columns, row, &test.right) {
            return compares(test.comparison, left.cmp(right));
        }
    }
    true
}

/// Whether no test refuses a row of these columns.
pub(crate) fn all_may_hold_in(tests: &[Test<Slot>], columns: &[Slot], row: &[Value]) -> bool
    ensures { result ≡ list_all (may_hold_in columns.now row.now) tests.now }
{
    tests.iter().all(|test| may_hold_in(columns, row, test))
}

/// Whether a class is one of a column.
fn has_column(columns: &[Slot], number: usize) -> bool
    ensures { result ≡ list_any (is_class number) columns.now }
{
    columns.iter().any(|column| is_class(column, number))
}

/// Whether a slot is a known value, or the class of a column.
fn is_slot_of(columns: &[Slot], slot: &Slot) -> bool
    ensures { result ≡ is_slot_of columns.now slot.now }
{
    match slot {
        Slot::Fixed(_) => true,
        Slot::Class(number) => has_column(columns, *number),
    }
}

fn test_copy(alloc: Global, test: &Test<Slot>) -> Result<Test<Slot>, AllocError>
    ensures { IfOk result (λ copy. copy ≡ test.now) }
{
    Ok(Test {
        left: slot_copy(alloc, &test.left)?,
        comparison: test.comparison,
        right: slot_copy(alloc, &test.right)?,
    })
}

/// The tests that read nothing but these columns.
pub(crate) fn tests_of(
    alloc: Global,
    tests: &[Test<Slot>],
    columns: &[Slot],
) -> Result<Vec<Test<Slot>>, AllocError>
    ensures { IfOk result (λ own. own.items ≡ filter (is_test_of columns.now) tests.now) }
{
    let mut own = Vec::new(alloc);
    for test in tests {
        if is_slot_of(columns, &test.left) && is_slot_of(columns, &test.right) {
            own.push(test_copy(alloc, test)?)?;
        }
    }
    Ok(own)
}
