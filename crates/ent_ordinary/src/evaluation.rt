//! Evaluation of ordinary statements.
ghost use Rattle.std.specs.Prelude.{◌≡◌, [], ◌∷◌, IfOk, length, map};
ghost use Rattle.ent_rel.specs.Numbered.{relation_of};
ghost use Rattle.ent_semantics.specs.Term.{expression_value};
ghost use Rattle.ent_ordinary.specs.Tables.{kinds_in, rows_in};
ghost use Rattle.ent_ordinary.specs.Worth.{itself};
ghost use Rattle.ent_ordinary.specs.Setting.{Binds};
ghost use Rattle.ent_semantics.specs.FormKinds.{Fits};
ghost use Rattle.ent_ordinary.specs.Meant.{IsMeant, CanBeApplied};

use crate::all;
use crate::change::{deletion, insertion, replacement};
use crate::expression::known_expression;
use crate::outcome::Outcome;
use ent_rel::{NumberedTable, Table};
use ent_semantics::Statement;
use ent_tree::Expression;
use ent_value::{Refusal, Value};
use std::alloc::{AllocError, Global};

/// The one table of a list.
fn only(tables: &[NumberedTable]) -> &Table
    requires { length tables.now ≡ 1 }
    ensures { map relation_of tables.now ≡ result.now ∷ [] }
{
    tables[0].table()
}

/// What a SET of an expression comes to.
fn binding(alloc: Global, expression: &Expression<Value>) -> Result<Outcome, AllocError>
    ensures { IfOk result (λ outcome. Binds (expression_value itself expression.now) outcome) }
{
    match known_expression(alloc, expression) {
        Ok(value) => Ok(Outcome::Value(value)),
        Err(Refusal::Memory) => Err(AllocError),
        Err(Refusal::Fault(failure)) => Ok(Outcome::Fault(failure)),
    }
}

/// What a closed ordinary statement comes to over the tables that it names, in the order in which it names them: what
/// it means in each database in which they stand. The tables stay; a change that is told can be applied to its one
/// table.
pub fn statement_outcome(
    alloc: Global,
    statement: &Statement<Value>,
    tables: &[NumberedTable],
) -> Result<Outcome, AllocError>
    requires { Fits (kinds_in (map relation_of tables.now)) statement.now }
    ensures meaning { IfOk result (λ outcome. IsMeant statement.now (rows_in (map relation_of tables.now)) outcome) }
    ensures change { IfOk result (λ outcome. CanBeApplied (map relation_of tables.now) outcome) }
{
    match statement {
        Statement::Select(query) => Ok(Outcome::Rows(all(alloc, query, tables)?)),
        // It isn't ordinary.
        Statement::Entangled(_) => unreachable!(),
        Statement::Insert { values, .. } => insertion(alloc, only(tables), values.as_slice()),
        Statement::Delete { tests, .. } => deletion(alloc, only(tables), tests.as_slice()),
        Statement::Update { image, tests, .. } => {
            replacement(alloc, only(tables), image.as_slice(), tests.as_slice())
        }
        Statement::Set { expression, .. } => binding(alloc, expression),
    }
}
