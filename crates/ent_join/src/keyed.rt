//! Indexes of sub-selects' results: each row that agrees with the columns, by the values of their classes.
ghost use Rattle.std.specs.Prelude.{◌≡◌, ◌==◌, ◌&&◌, IfOk, IsTrue, length, map};
ghost use Rattle.std.specs.List.{filter, list_all};
ghost use Rattle.std.specs.List.Sorted.{IsStrictlySortedBy};
ghost use Rattle.std.specs.Option.{option_copied};
ghost use Rattle.std.specs.Ordering.{nat_cmp};
ghost use Rattle.ent_lists.specs.Sets as set;
ghost use Rattle.ent_value.specs.Value.{row_cmp};
ghost use Rattle.ent_plan.specs.declared.slot.Slot.TheVariants.{Class};
ghost use Rattle.ent_join.specs.Alone.{is_left, may_hold_in};
ghost use Rattle.ent_join.specs.Keyed.{agree, ascending_classes, class_numbers, index_under, is_class, is_wanted};
ghost use Rattle.ent_join.specs.Keyed.{key_under, keys_under, term_slot, value_under};

use crate::alone::{all_may_hold_in, tests_of};
use crate::index::Index;
use ent_plan::Slot;
use ent_rel::ascending;
use ent_semantics::Term;
use ent_tree::Test;
use ent_value::{Row, Sequence, Value};
use std::alloc::{AllocError, Global};

/// What a term is whose statement's written variables have these slots.
pub(crate) fn term_slot(
    alloc: Global,
    slots: &[Slot],
    term: &Term<Value>,
) -> Result<Slot, AllocError>
    ensures { IfOk result (λ slot. slot ≡ term_slot slots.now term.now) }
{
    match term {
        Term::Known(value) => Ok(Slot::Fixed(value.copy(alloc)?)),
        Term::Variable(number) => match slots.get(*number) {
            None => Ok(Slot::Fixed(Value::Int(0))),
            Some(slot) => slot_copy(alloc, slot),
        },
    }
}

pub(crate) fn slot_copy(alloc: Global, slot: &Slot) -> Result<Slot, AllocError>
    ensures { IfOk result (λ copy. copy ≡ slot.now) }
{
    match slot {
        Slot::Fixed(value) => Ok(Slot::Fixed(value.copy(alloc)?)),
        Slot::Class(number) => Ok(Slot::Class(*number)),
    }
}

/// What the terms of a tuple are.
pub(crate) fn columns_of(
    alloc: Global,
    slots: &[Slot],
    terms: &[Term<Value>],
) -> Result<Sequence<Slot>, AllocError>
    ensures { IfOk result (λ columns. columns ≡ map (term_slot slots.now) terms.now) }
{
    let mut columns = Sequence::new(alloc);
    for term in terms {
        columns.push(term_slot(alloc, slots, term)?)?;
    }
    Ok(columns)
}

/// The classes of columns, ascending, each once.
fn classes_of(alloc: Global, columns: &[Slot]) -> Result<Vec<usize>, AllocError>
    ensures { IfOk result (λ classes. classes.items ≡ ascending_classes columns.now) }
{
    let mut classes = class_numbers(alloc, columns)?;
    classes.sort()?;
    classes.dedup();
    Ok(classes)
}

fn class_numbers(alloc: Global, columns: &[Slot]) -> Result<Vec<usize>, AllocError>
    ensures { IfOk result (λ classes. classes.items ≡ class_numbers columns.now) }
{
    let mut classes = Vec::new(alloc);
    for slot in columns {
        if let Slot::Class(number) = slot {
            classes.push(*number)?;
        }
    }
    Ok(classes)
}

/// The value of a row in the first column of a class.
pub(crate) fn value_under<'a>(
    number: usize,
    columns: &[Slot],
    row: &'a [Value],
) -> Option<&'a Value>
    ensures { option_copied result ≡ value_under number columns.now row.now }
{
    if let [slot, columns @ ..] = columns {
        if let [value, row @ ..] = row {
            if is_class(slot, number) {
                return Some(value);
            }
            return value_under(number, columns, row);
        }
    }
    None
}

/// Whether a slot is a class.
pub(crate) fn is_class(slot: &Slot, number: usize) -> bool
    ensures value { result ≡ is_class number slot.now }
    ensures class { IsTrue result → slot.now ≡ Class number }
{
    match slot {
        Slot::Fixed(_) => false,
        Slot::Class(other) => *other == number,
    }
}

/// Whether a value is what a column wants: a known one, or that of the first column of its class.
fn is_wanted(columns: &[Slot], row: &[Value], slot: &Slot, value: &Value) -> bool
    ensures { result ≡ is_wanted columns.now row.now slot.now value.now }
{
    match slot {
        Slot::Fixed(known) => known.cmp(value).is_eq(),
        Slot::Class(number) => match value_under(*number, columns, row) {
            None => false,
            Some(found) => found.cmp(value).is_eq(),
        },
    }
}

/// Whether each of some columns of a row has what it wants.
fn agree(columns: &[Slot], row: &[Value], slots: &[Slot], values: &[Value]) -> bool
    ensures { result ≡ agree columns.now row.now slots.now values.now }
{
    match slots {
        [] => values.is_empty(),
        [slot, slots @ ..] => {
            if let [value, values @ ..] = values {
                return is_wanted(columns, row, slot, value) && agree(columns, row, slots, values);
            }
            false
        }
    }
}

/// The values of a row under some classes.
fn key_under(
    alloc: Global,
    columns: &[Slot],
    row: &[Value],
    classes: &[usize],
) -> Result<Row, AllocError>
    ensures { IfOk result (λ key. key ≡ key_under columns.now row.now classes.now) }
{
    let mut key = Vec::with_capacity(alloc, classes.len())?;
    for class in classes {
        match value_under(*class, columns, row) {
            None => key.push(Value::Int(0))?,
            Some(value) => key.push(value.copy(alloc)?)?,
        }
    }
    Ok(Row::from_vec(key))
}

/// The keys of the rows that agree with the columns and that none of these tests of them refuses.
fn keys_under(
    alloc: Global,
    tests: &[Test<Slot>],
    columns: &[Slot],
    classes: &[usize],
    rows: &[Row],
) -> Result<Vec<Row>, AllocError>
    ensures { IfOk result (λ keys. keys.items ≡ keys_under columns.now classes.now
        (filter (λ row. list_all (may_hold_in columns.now row) tests.now) rows.now)) }
{
    let mut keys = Vec::new(alloc);
    for row in rows {
        if all_may_hold_in(tests, columns, row.values())
            && agree(columns, row.values(), columns, row.values())
        {
            keys.push(key_under(alloc, columns, row.values(), classes)?)?;
        }
    }
    Ok(keys)
}

/// Whether columns are just these classes, in this order.
fn are_classes(columns: &[Slot], classes: &[usize]) -> bool
    ensures { IsTrue result → columns.now ≡ map Class classes.now }
{
    match columns {
        [] => classes.is_empty(),
        [column, columns @ ..] => {
            if let [class, classes @ ..] = classes {
                return is_class(column, *class) && are_classes(columns, classes);
            }
            false
        }
    }
}

/// Leaves those of some rows that have a value for each column and that none of these tests of them refuses.
fn retain_left(tests: &[Test<Slot>], columns: &[Slot], rows: &mut Vec<Row>)
    ensures { rows.new.items ≡ filter (λ row. (length row == length columns.now)
        && list_all (may_hold_in columns.now row) tests.now) rows.old.items }
{
    rows.retain(|row| {
        row.values().len() == columns.len() && all_may_hold_in(tests, columns, row.values())
    });
}

/// The keys, ascending, of the rows that agree with the columns and that none of these tests of them refuses. Where
/// each column is a class of its own, a row is its key: it is moved, and not copied.
fn ascending_keys(
    alloc: Global,
    tests: &[Test<Slot>],
    columns: &[Slot],
    classes: &[usize],
    mut rows: Vec<Row>,
) -> Result<Vec<Row>, AllocError>
    requires rows { IsStrictlySortedBy row_cmp rows.items }
    requires classes { IsStrictlySortedBy nat_cmp classes.now }
    ensures { IfOk result (λ keys. keys.items ≡ set.ascending (set.from_list {R = row_cmp}
        (keys_under columns.now classes.now
        (filter (λ row. list_all (may_hold_in columns.now row) tests.now) rows.items)))) }
{
    if are_classes(columns, classes) {
        retain_left(tests, columns, &mut rows);
        return Ok(rows);
    }
    ascending(keys_under(alloc, tests, columns, classes, rows.as_slice())?)
}

/// The index of the rows of a sub-select's result, which ascend, that agree with the columns of a tuple. Rows that a
/// test refuses which reads nothing but these columns are left out.
pub(crate) fn index_of(
    alloc: Global,
    tests: &[Test<Slot>],
    columns: &[Slot],
    rows: Sequence<Row>,
) -> Result<Index, AllocError>
    requires { IsStrictlySortedBy row_cmp rows }
    ensures { IfOk result (λ index. index
        ≡ index_under columns.now (filter (is_left tests.now columns.now) rows)) }
{
    let own = tests_of(alloc, tests, columns)?;
    let classes = classes_of(alloc, columns)?;
    let rows = rows.into_vec();
    let keys = ascending_keys(alloc, own.as_slice(), columns, classes.as_slice(), rows)?;
    Index::new(alloc, Sequence::from_vec(classes), Sequence::from_vec(keys))
}
