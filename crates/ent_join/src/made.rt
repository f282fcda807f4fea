//! Indexes that were made for tuples, so that tuples of one sub-select and the same columns share one.
ghost use Rattle.std.specs.Prelude.{◌≡◌, ◌++◌, [], IfOk, IfSome, IsTrue, List, OnOk};
ghost use Rattle.std.specs.List.{AllByRecursion};
ghost use Rattle.std.specs.Option.{option_copied};
ghost use Rattle.ent_tree.specs.declared.operand.Test.{Test as Tested};
ghost use Rattle.ent_rel.specs.Numbered.{Numbered};
ghost use Rattle.ent_plan.specs.declared.slot.Slot.{Slot as Slotted};
ghost use Rattle.ent_join.specs.Asked.{IsMade, select_index, tables_at};
ghost use Rattle.ent_join.specs.Laid.{table_at};

use crate::index::Index;
use crate::keyed::index_of;
use ent_ordinary::all;
use ent_plan::Slot;
use ent_rel::NumberedTable;
use ent_semantics::Select;
use ent_tree::{Duplicate, Same, Test};
use ent_value::{Sequence, Value};
use std::alloc::{AllocError, Global};

/// An index, and of which sub-select's result and which columns it was made.
#[derive(Drop)]
pub(crate) struct Made<'a> {
    pub(crate) select: &'a Select<Value>,
    pub(crate) columns: Sequence<Slot>,
    pub(crate) index: Index,
}

/// The table of a number.
fn table_at(number: usize, tables: &[NumberedTable]) -> Option<&NumberedTable>
    ensures { option_copied result ≡ table_at number tables.now }
{
    if let [table, tables @ ..] = tables {
        if table.number() == number {
            return Some(table);
        }
        return table_at(number, tables);
    }
    None
}

/// The tables of some numbers, shared.
fn tables_at(
    alloc: Global,
    tables: &[NumberedTable],
    sources: &[usize],
) -> Result<Vec<NumberedTable>, AllocError>
    ensures { IfOk result (λ found. found.items ≡ tables_at tables.now sources.now) }
{
    let mut found = Vec::new(alloc);
    for source in sources {
        if let Some(table) = table_at(*source, tables) {
            found.push(table.copy(alloc)?)?;
        }
    }
    Ok(found)
}

fn is_same_slot(slot: &Slot, other: &Slot) -> bool
    ensures { IsTrue result → slot.now ≡ other.now }
{
    match (slot, other) {
        (Slot::Fixed(value), Slot::Fixed(other)) => *value == *other,
        (Slot::Class(number), Slot::Class(other)) => *number == *other,
        _ => false,
    }
}

fn are_same_slots(slots: &[Slot], others: &[Slot]) -> bool
    ensures { IsTrue result → slots.now ≡ others.now }
{
    match slots {
        [] => others.is_empty(),
        [slot, slots @ ..] => {
            if let [other, others @ ..] = others {
                return is_same_slot(slot, other) && are_same_slots(slots, others);
            }
            false
        }
    }
}

impl<'a> Made<'a> {
    /// Whether it was made of this sub-select and these columns.
    fn is_of(&self, select: &Select<Value>, columns: &[Slot]) -> bool
        ensures select { IsTrue result → self.now.select.now ≡ select.now }
        ensures columns { IsTrue result → self.now.columns ≡ columns.now }
    {
        self.select.is_same(select) && are_same_slots(self.columns.as_slice(), columns)
    }
}

/// The index that was made of a sub-select and columns, where there is one.
fn made_of<'m>(made: &'m [Made<'_>], select: &Select<Value>, columns: &[Slot]) -> Option<&'m Index>
    ensures { (tables : List Numbered) (tests : List (Tested Slotted))
        → AllByRecursion (IsMade tables tests) made.now
        → IfSome result (λ index. index.now ≡ select_index tables tests select.now columns.now) }
{
    if let [first, made @ ..] = made {
        if first.is_of(select, columns) {
            return Some(&first.index);
        }
        return made_of(made, select, columns);
    }
    None
}

/// The index of columns over the result of a sub-select, without the rows that tests of these columns refuse.
fn select_index(
    alloc: Global,
    tables: &[NumberedTable],
    tests: &[Test<Slot>],
    select: &Select<Value>,
    columns: &[Slot],
) -> Result<Index, AllocError>
    ensures { IfOk result (λ index. index
        ≡ select_index tables.now tests.now select.now columns.now) }
{
    let sources = tables_at(alloc, tables, select.sources.as_slice())?;
    let rows = all(alloc, select, sources.as_slice())?;
    index_of(alloc, tests, columns, rows)
}

/// The index of columns over the result of a sub-select. It is looked for among those that were made, else it is made
/// and kept there.
pub(crate) fn index_for<'a>(
    alloc: Global,
    tables: &[NumberedTable],
    tests: &[Test<Slot>],
    made: &mut Vec<Made<'a>>,
    select: &'a Select<Value>,
    columns: Sequence<Slot>,
) -> Result<Index, AllocError>
    requires { AllByRecursion (IsMade tables.now tests.now) made.old.items }
    ensures index { IfOk result (λ index. index
        ≡ select_index tables.now tests.now select.now columns) }
    ensures made { OnOk result
        (AllByRecursion (IsMade tables.now tests.now) made.new.items) }
{
    if let Some(index) = made_of(made.as_slice(), select, columns.as_slice()) {
        let shared = index.shared(alloc)?;
        return Ok(shared);
    }
    let index = select_index(alloc, tables, tests, select, columns.as_slice())?;
    let shared = index.shared(alloc)?;
    made.push(Made {
        select,
        columns,
        index: shared,
    })?;
    Ok(index)
}
