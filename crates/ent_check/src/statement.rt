//! Ordinary statements, carried out.
ghost use Rattle.std.specs.Prelude.{◌≡◌, ◌<◌, [], IfOk, OnOk, length, map, slice_index_or, slice_set};
ghost use Rattle.std.specs.Arc.{arc_value};
ghost use Rattle.std.specs.List.{AllByRecursion};
ghost use Rattle.ent_check.specs.Sorts.{CanRun, IsOrdinary, IsSet};
ghost use Rattle.ent_semantics.specs.Form.{closed_worth, form_bound, form_heads, form_meaning};
ghost use Rattle.ent_semantics.specs.FormKinds.{Fits, tables_named};
ghost use Rattle.ent_closing.specs.Environment.{environment_of};
ghost use Rattle.ent_ordinary.specs.Change.{IsApplicable};
ghost use Rattle.ent_ordinary.specs.Meant.{changed_number, set_variable};
ghost use Rattle.ent_rel.specs.Change.{changed_rows};
ghost use Rattle.ent_ordinary.specs.Tables.{kinds_in, no_table, rows_in};
ghost use Rattle.ent_ordinary.specs.Worth.{itself};
ghost use Rattle.ent_semantics.specs.Database.{with_value, with_values};
ghost use Rattle.ent_lists.specs.Sets as set;
ghost use Rattle.ent_value.specs.Refusal.{Gives};

use crate::{bindings_of, facts_of, tables_of};
use ent_closing::Environment;
use ent_ordinary::{Outcome, statement_outcome, table_changed};
use ent_rel::{Delta, Table};
use ent_semantics::{Answer, Entangled, Fact, Failure, Statement};
use ent_tree::Duplicate;
use ent_value::{Refusal, Sequence, Value};
use std::alloc::{AllocError, Global};
use std::sync::Arc;

/// The numbers of the tables that an ordinary statement names, in order.
fn tables_named(alloc: Global, statement: &Statement<Value>) -> Result<Vec<usize>, AllocError>
    requires { IsOrdinary statement.now }
    ensures { IfOk result (λ numbers. numbers.items ≡ tables_named statement.now) }
{
    match statement {
        Statement::Select(select) => Vec::from_slice(alloc, select.sources.as_slice()),
        Statement::Insert { table, .. } => Ok(vec![in alloc; *table]?),
        Statement::Delete { table, .. } => Ok(vec![in alloc; *table]?),
        Statement::Update { table, .. } => Ok(vec![in alloc; *table]?),
        Statement::Set { .. } => Ok(Vec::new(alloc)),
        Statement::Entangled(_) => unreachable!(),
    }
}

/// The number of the table that a statement changes; 0 where it changes none.
fn changed_number(statement: &Statement<Value>) -> usize
    ensures { result ≡ changed_number statement.now }
{
    match statement.changed_table() {
        Some(table) => table,
        None => 0,
    }
}

/// Makes a change of the table of a number.
fn change(
    alloc: Global,
    tables: &mut Vec<Arc<Table>>,
    number: usize,
    delta: &Delta,
) -> Result<(), AllocError>
    requires within { number < length tables.old.items }
    requires applicable { IsApplicable (slice_index_or (map arc_value tables.old.items) number no_table) delta.now }
    ensures rows { let before = rows_in (map arc_value tables.old.items) in
        let after = changed_rows (slice_index_or before number set.empty) delta.now.removed delta.now.added in
        OnOk result (rows_in (map arc_value tables.new.items) ≡ slice_set before number after) }
    ensures kinds { OnOk result
        (kinds_in (map arc_value tables.new.items) ≡ kinds_in (map arc_value tables.old.items)) }
{
    let changed = table_changed(alloc, tables.as_slice(), number, delta)?;
    tables[number] = changed;
    Ok(())
}

/// Binds the host variable of a SET.
fn bind_set(
    alloc: Global,
    environment: &mut Environment,
    statement: &Statement<Value>,
    value: &Value,
) -> Result<(), AllocError>
    requires { IsSet statement.now }
    ensures { OnOk result (environment_of environment.new
        ≡ with_value (environment_of environment.old) (set_variable statement.now) value.now) }
{
    match statement {
        Statement::Set { variable, .. } => {
            let variable = variable.copy(alloc)?;
            environment.bind(variable, value.copy(alloc)?)
        }
        // No other binds a value.
        _ => unreachable!(),
    }
}

/// Carries out a closed ordinary statement over tables, in the order of their declaration, and binds what it sets. The
/// answer is the statement's, or the failure is.
fn carry_out_ordinary(
    alloc: Global,
    statement: &Statement<Value>,
    tables: &mut Vec<Arc<Table>>,
    environment: &mut Environment,
) -> Result<Answer, Refusal<Failure>>
    requires within { AllByRecursion (λ number. number < length tables.old.items) (tables_named statement.now) }
    requires fits { let kinds = kinds_in (map arc_value tables.old.items) in
        Fits (map (λ number. slice_index_or kinds number []) (tables_named statement.now)) statement.now }
    ensures meaning { Gives
        (λ answer. record {
          database = rows_in (map arc_value tables.new.items);
          environment = environment_of environment.new;
          answer = answer;
        })
        result
        (form_meaning closed_worth statement.now [] (rows_in (map arc_value tables.old.items))
        (environment_of environment.old)) }
    ensures kinds { IfOk result (λ answer.
        kinds_in (map arc_value tables.new.items) ≡ kinds_in (map arc_value tables.old.items)) }
{
    let numbers = tables_named(alloc, statement)?;
    let named = tables_of(alloc, tables.as_slice(), &numbers)?;
    match statement_outcome(alloc, statement, &named)? {
        Outcome::Rows(rows) => Ok(Answer::Rows(rows)),
        Outcome::Changed { count, delta } => {
            change(alloc, tables, changed_number(statement), &delta)?;
            Ok(Answer::Count(count))
        }
        Outcome::Value(value) => {
            bind_set(alloc, environment, statement, &value)?;
            Ok(Answer::Value(value))
        }
        Outcome::Fault(failure) => Err(Refusal::Fault(failure)),
    }
}

/// Answers a closed entangled statement under a grounding, and binds what it binds.
fn answer_under(
    alloc: Global,
    entangled: &Entangled<Value>,
    grounding: &[Value],
    environment: &mut Environment,
) -> Result<Sequence<Fact>, AllocError>
    ensures heads { IfOk result (λ heads. heads ≡ form_heads itself entangled.now grounding.now) }
    ensures bound { IfOk result (λ heads. environment_of environment.new
        ≡ with_values (environment_of environment.old) (form_bound itself entangled.now grounding.now)) }
{
    let heads = facts_of(alloc, grounding, entangled.heads.as_slice())?;
    let bound = bindings_of(alloc, grounding, entangled)?;
    environment.bind_all(bound)?;
    Ok(heads)
}

/// Carries out a closed statement over tables, in the order of their declaration, and binds what it binds; an entangled
/// one is answered under this grounding. The answer is the statement's, or the failure is.
pub fn carry_out(
    alloc: Global,
    statement: &Statement<Value>,
    grounding: &[Value],
    tables: &mut Vec<Arc<Table>>,
    environment: &mut Environment,
) -> Result<Answer, Refusal<Failure>>
    requires within { AllByRecursion (λ number. number < length tables.old.items) (tables_named statement.now) }
    requires fits { let kinds = kinds_in (map arc_value tables.old.items) in
        CanRun (map (λ number. slice_index_or kinds number []) (tables_named statement.now)) statement.now }
    ensures meaning { Gives
        (λ answer. record {
          database = rows_in (map arc_value tables.new.items);
          environment = environment_of environment.new;
          answer = answer;
        })
        result
        (form_meaning closed_worth statement.now grounding.now (rows_in (map arc_value tables.old.items))
        (environment_of environment.old)) }
    ensures kinds { IfOk result (λ answer.
        kinds_in (map arc_value tables.new.items) ≡ kinds_in (map arc_value tables.old.items)) }
{
    match statement {
        Statement::Entangled(entangled) => Ok(Answer::Heads(answer_under(
            alloc,
            entangled,
            grounding,
            environment,
        )?)),
        _ => carry_out_ordinary(alloc, statement, tables, environment),
    }
}
