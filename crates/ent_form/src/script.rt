//! Statements and scripts resolved against the catalogue.
ghost use Rattle.std.specs.Prelude.{◌≡◌, []};
ghost use Rattle.ent_value.specs.Refusal.{Gives};
ghost use Rattle.ent_form.specs.Bindings.{bound_in};
ghost use Rattle.ent_form.specs.FirstFault.{RefusedForFirst};
ghost use Rattle.ent_form.specs.Form.{statement_in, script_in};
ghost use Rattle.ent_form.specs.ScriptFaults.{script_faults};

use crate::binding::Bindings;
use crate::catalogue::Catalogue;
use crate::change::{delete, insert, set, update};
use crate::entangled::entangled;
use crate::fault::FormFault;
use crate::select::select;
use ent_semantics::{Known, Statement as ResolvedStatement};
use ent_tree::{End, MOST_STATEMENTS, Script, Statement};
use ent_value::{Limited, Refusal};
use std::alloc::Global;

/// A script of resolved statements.
#[derive(Drop)]
pub struct Plain {
    pub statements: Limited<ResolvedStatement<Known>, MOST_STATEMENTS>,
    pub end: End,
}

/// A statement; what it binds is bound from then on.
#[tactic(auto, unfolding(crate::specs::Form::statement_in))]
fn statement(
    alloc: Global,
    catalogue: &Catalogue,
    bindings: &mut Bindings,
    statement: &Statement,
) -> Result<ResolvedStatement<Known>, Refusal<FormFault>>
    ensures { Gives (λ form. (form, bound_in bindings.new)) result
        (statement_in catalogue.now.tables (bound_in bindings.old) statement.now) }
{
    Ok(match statement {
        Statement::Select(ordinary) => {
            let (form, _) = select(alloc, catalogue, bindings, ordinary)?;
            ResolvedStatement::Select(form)
        }
        Statement::Entangled(tree) => {
            ResolvedStatement::Entangled(entangled(alloc, catalogue, bindings, tree)?)
        }
        Statement::Insert(tree) => insert(alloc, catalogue, bindings, tree)?,
        Statement::Delete(tree) => delete(alloc, catalogue, bindings, tree)?,
        Statement::Update(tree) => update(alloc, catalogue, bindings, tree)?,
        Statement::Set(tree) => set(alloc, bindings, tree)?,
    })
}

/// A script resolved statement by statement, or the fault that ends this.
fn in_order(
    alloc: Global,
    catalogue: &Catalogue,
    script: &Script,
) -> Result<Plain, Refusal<FormFault>>
    ensures { Gives (λ plain. plain) result (script_in catalogue.now.tables script.now) }
{
    let mut bindings = Bindings::new(alloc);
    let mut statements = Limited::with_capacity(alloc, script.statements.len())?;
    for one in script.statements.as_slice() {
        statements.push(statement(alloc, catalogue, &mut bindings, one)?)?;
    }
    Ok(Plain {
        statements,
        end: script.end,
    })
}

/// The statements of a script with their names resolved against the catalogue, or the first of its faults, in the order
/// in which `ScriptFaults` lists those that stand. The host variables that a statement may use are those that the
/// statements before it bind. Where memory runs out nothing is answered.
pub fn resolve(
    alloc: Global,
    catalogue: &Catalogue,
    script: &Script,
) -> Result<Plain, Refusal<FormFault>>
    ensures form { Gives (λ plain. plain) result (script_in catalogue.now.tables script.now) }
    ensures fault { RefusedForFirst (script_faults catalogue.now.tables script.now) result }
{
    in_order(alloc, catalogue, script)
}
