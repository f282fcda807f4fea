//! Statements.
ghost use Rattle.std.specs.Prelude.{◌≡◌, IfOk};
ghost use Rattle.ent_semantics.specs.Entangled.{Valuation};
ghost use Rattle.ent_semantics.specs.Form.{Tables, known_worth, closed_worth, form_meaning};
ghost use Rattle.ent_semantics.specs.Closing.{closed};
ghost use Rattle.ent_closing.specs.Environment.{environment_of};

use crate::closing::{Closing, closed_list, closed_sequence};
use crate::environment::Environment;
use ent_semantics::{Known, Select, Statement, closing_keeps_the_meaning};
use ent_tree::Duplicate;
use ent_value::Value;
use std::alloc::{AllocError, Global};

impl Closing for Select<Known> {
    type Closed = Select<Value>;

    ghost use Rattle.ent_semantics.specs.Closing.{select_over};
    ghost use Rattle.ent_semantics.specs.Form.{known_worth};

    ghost closing = { λ environment select. select_over (known_worth environment) select };

    fn closed(
        &self,
        alloc: Global,
        environment: &Environment,
    ) -> Result<Select<Value>, AllocError> {
        let sources = self.sources.copy(alloc)?;
        let items = closed_sequence(alloc, environment, &self.items)?;
        let tests = closed_list(alloc, environment, &self.tests)?;
        Ok(Select {
            sources,
            items,
            tests,
        })
    }
}

impl Closing for Statement<Known> {
    type Closed = Statement<Value>;

    ghost use Rattle.ent_semantics.specs.Closing.{statement_over};
    ghost use Rattle.ent_semantics.specs.Form.{known_worth};

    ghost closing = { λ environment statement. statement_over (known_worth environment) statement };

    fn closed(
        &self,
        alloc: Global,
        environment: &Environment,
    ) -> Result<Statement<Value>, AllocError> {
        match self {
            Statement::Select(select) => Ok(Statement::Select(select.closed(alloc, environment)?)),
            Statement::Entangled(entangled) => {
                Ok(Statement::Entangled(entangled.closed(alloc, environment)?))
            }
            Statement::Insert { table, values } => Ok(Statement::Insert {
                table: *table,
                values: closed_list(alloc, environment, values)?,
            }),
            Statement::Delete { table, tests } => Ok(Statement::Delete {
                table: *table,
                tests: closed_list(alloc, environment, tests)?,
            }),
            Statement::Update {
                table,
                image,
                tests,
            } => Ok(Statement::Update {
                table: *table,
                image: closed_sequence(alloc, environment, image)?,
                tests: closed_list(alloc, environment, tests)?,
            }),
            Statement::Set {
                variable,
                expression,
            } => Ok(Statement::Set {
                variable: variable.copy(alloc)?,
                expression: expression.closed(alloc, environment)?,
            }),
        }
    }
}

/// A resolved statement with the values of host variables in their place; one that isn't bound, which no statement that
/// was let through names, counts as 0. It means what the resolved one does over this environment.
pub fn closed(
    alloc: Global,
    statement: &Statement<Known>,
    environment: &Environment,
) -> Result<Statement<Value>, AllocError>
    ensures closed { IfOk result (λ made. made ≡ closed (environment_of environment.now) statement.now) }
    ensures meaning { let bound = environment_of environment.now in
        IfOk result (λ made. (valuation : Valuation) (tables : Tables)
        → form_meaning closed_worth made valuation tables bound
        ≡ form_meaning known_worth statement.now valuation tables bound) }
{
    closing_keeps_the_meaning();
    statement.closed(alloc, environment)
}
