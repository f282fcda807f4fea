//! Groundings, tested.
ghost use Rattle.std.specs.Prelude.{◌≡◌, ◌<◌, List, IfOk, is_none, length, map, slice_index_or};
ghost use Rattle.std.specs.Arc.{arc_value};
ghost use Rattle.std.specs.List.{AllByRecursion, list_all};
ghost use Rattle.ent_lists.specs.Sets as set;
ghost use Rattle.ent_semantics.specs.Form.{is_form_grounding, membership_holds, term_worth};
ghost use Rattle.ent_semantics.specs.FormKinds.{tables_named};
ghost use Rattle.ent_semantics.specs.declared.statement.Statement.TheVariants as statements;
ghost use Rattle.ent_semantics.specs.declared.operand.Operand.TheVariants.{Known};
ghost use Rattle.ent_check.specs.Shown.{is_shown};
ghost use Rattle.ent_rel.specs.Numbered.{relation_of};
ghost use Rattle.ent_ordinary.specs.Tables.{no_table, rows_in};
ghost use Rattle.ent_ordinary.specs.Worth.{itself};
ghost use Rattle.ent_semantics.specs.Database.{Rows};
ghost use Rattle.ent_semantics.specs.Selection.{holds};
ghost use Rattle.ent_tree.specs.declared.operand.Comparison.TheVariants.{Equal};
ghost use Rattle.ent_value.specs.Value.{row_cmp};

use crate::Evidence;
use crate::term::{terms_row, test_holds};
use ent_ordinary::{all, table_at};
use ent_rel::{NumberedTable, Table};
use ent_semantics::{Entangled, Membership, Operand, Select, Term};
use ent_tree::{Comparison, Duplicate, MOST_PARTS, Test};
use ent_value::{Row, Value, rows_are_ordered};
use std::alloc::{AllocError, Global};
use std::sync::Arc;

/// The tables of these numbers, in order, shared.
pub fn tables_of(
    alloc: Global,
    tables: &[Arc<Table>],
    numbers: &[usize],
) -> Result<Vec<NumberedTable>, AllocError>
    requires { AllByRecursion (λ number. number < length tables.now) numbers.now }
    ensures numbers { IfOk result (λ named. map (λ table. table.table) named.items ≡ numbers.now) }
    ensures tables { IfOk result (λ named. map relation_of named.items
        ≡ map (λ number. slice_index_or (map arc_value tables.now) number no_table) numbers.now) }
{
    let mut named = Vec::with_capacity(alloc, numbers.len())?;
    for number in numbers {
        named.push(NumberedTable::new(*number, table_at(tables, *number)?))?;
    }
    Ok(named)
}

/// The tables of these numbers, shared, as the sources of a SELECT.
fn sources_of(
    alloc: Global,
    tables: &[Arc<Table>],
    numbers: &[usize],
) -> Result<Vec<NumberedTable>, AllocError>
    requires { AllByRecursion (λ number. number < length tables.now) numbers.now }
    ensures { IfOk result (λ sources. rows_in (map relation_of sources.items)
        ≡ map (λ number. slice_index_or (rows_in (map arc_value tables.now)) number set.empty) numbers.now) }
{
    tables_of(alloc, tables, numbers)
}

/// Whether a row is one of a list.
fn is_among(rows: &[Row], row: &Row) -> bool
    ensures { (of : set.Set row_cmp) → rows.now ≡ set.ascending of → result ≡ set.contains of row.now }
{
    rows.contains(row)
}

/// The test that an operand has a value.
fn has_value(
    alloc: Global,
    operand: &Operand<Value>,
    value: &Value,
) -> Result<Test<Operand<Value>>, AllocError>
    ensures { IfOk result (λ test. test
        ≡ record { left = operand.now; comparison = Equal; right = Known value.now }) }
{
    Ok(Test {
        left: operand.copy(alloc)?,
        comparison: Comparison::Equal,
        right: Operand::Known(value.copy(alloc)?),
    })
}

/// A SELECT with this row in its result where a given SELECT has it in its own, and with few rows else: as many tests
/// as there is room for say that an item has the row's value.
fn narrowed(
    alloc: Global,
    select: &Select<Value>,
    row: &[Value],
) -> Result<Select<Value>, AllocError>
    ensures sources { IfOk result (λ narrowed. narrowed.sources ≡ select.now.sources) }
    ensures holds { IfOk result (λ narrowed. (sources : List Rows)
        → is_shown narrowed sources row.now ≡ is_shown select.now sources row.now) }
{
    let mut narrowed = select.copy(alloc)?;
    let items = select.items.as_slice();
    let many = items.len().min(row.len());
    for index in 0..many {
        if narrowed.tests.len() < MOST_PARTS {
            let test = has_value(alloc, &items[index], &row[index])?;
            narrowed.tests.push(test)?;
        }
    }
    Ok(narrowed)
}

/// Whether a tuple is a row of its sub-select's result.
fn membership_holds(
    alloc: Global,
    tables: &[Arc<Table>],
    grounding: &[Value],
    membership: &Membership<Value>,
) -> Result<bool, AllocError>
    requires { AllByRecursion (λ number. number < length tables.now) membership.now.select.sources }
    ensures { IfOk result (λ holds. holds
        ≡ membership_holds itself (rows_in (map arc_value tables.now)) grounding.now membership.now) }
{
    let sources = sources_of(alloc, tables, membership.select.sources.as_slice())?;
    let row = terms_row(alloc, grounding, &membership.terms)?;
    let select = narrowed(alloc, &membership.select, row.values())?;
    let rows = all(alloc, &select, sources.as_slice())?;
    Ok(is_among(rows.as_slice(), &row))
}

/// The number of the first tuple that is no row of its sub-select's result, counted from 1.
fn failing_membership(
    alloc: Global,
    tables: &[Arc<Table>],
    grounding: &[Value],
    memberships: &[Membership<Value>],
) -> Result<Option<u64>, AllocError>
    requires { AllByRecursion
        (λ membership. AllByRecursion (λ number. number < length tables.now) membership.select.sources)
        memberships.now }
    ensures { IfOk result (λ failing. is_none failing
        ≡ list_all (membership_holds itself (rows_in (map arc_value tables.now)) grounding.now) memberships.now) }
{
    let mut number: u64 = 1;
    for membership in memberships {
        if !membership_holds(alloc, tables, grounding, membership)? {
            return Ok(Some(number));
        }
        number = number.saturating_add(1);
    }
    Ok(None)
}

/// The number of the first test between terms that isn't true, counted from 1.
fn failing_test(grounding: &[Value], tests: &[Test<Term<Value>>]) -> Option<u64>
    ensures { is_none result ≡ list_all (holds (term_worth itself grounding.now)) tests.now }
{
    let mut number: u64 = 1;
    for test in tests {
        if !test_holds(grounding, test) {
            return Some(number);
        }
        number = number.saturating_add(1);
    }
    None
}

/// Why values are no grounding of a closed entangled statement over tables, in the order of their declaration: their
/// number, else the first tuple that is no row of its sub-select's result, else the first test that isn't true; none
/// where they are one. It is tested, and nothing is searched for; of a sub-select's result only the tuple's own row is
/// made.
pub(crate) fn failing(
    alloc: Global,
    statement: &Entangled<Value>,
    tables: &[Arc<Table>],
    grounding: &[Value],
) -> Result<Option<Evidence>, AllocError>
    requires { AllByRecursion
        (λ membership. AllByRecursion (λ number. number < length tables.now) membership.select.sources)
        statement.now.atoms }
    ensures { IfOk result (λ failing. is_none failing
        ≡ is_form_grounding itself (rows_in (map arc_value tables.now)) statement.now grounding.now) }
{
    let wanted = statement.variables.len();
    let told = grounding.len();
    if told != wanted {
        return Ok(Some(Evidence::Values {
            wanted: wanted as u64,
            told: told as u64,
        }));
    }
    let atoms = statement.atoms.as_slice();
    if let Some(number) = failing_membership(alloc, tables, grounding, atoms)? {
        return Ok(Some(Evidence::Membership(number)));
    }
    match failing_test(grounding, statement.tests.as_slice()) {
        Some(number) => Ok(Some(Evidence::Comparison(number))),
        None => Ok(None),
    }
}
