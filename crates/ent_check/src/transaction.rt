//! A transaction, run alone.
ghost use Rattle.std.specs.Prelude.{◌≡◌, [], None, Ok, IfOk, map};
ghost use Rattle.std.specs.Arc.{arc_value};
ghost use Rattle.ent_check.specs.Alone.{AreSeated, IsReplayed, IsResolved, StandAsDeclared, account_at};
ghost use Rattle.ent_form.specs.Form.{script_in};
ghost use Rattle.ent_form.specs.ScriptFaults.{script_faults};
ghost use Rattle.ent_form.specs.Tables.{database_of};
ghost use Rattle.ent_ordinary.specs.Tables.{rows_in};

use crate::Groundings;
use crate::declared::Declared;
use crate::operation::{Stage, StatementPlace, operation_finding};
use crate::replay_law::forms_run_as_statements;
use ent_closing::{Environment, closed};
use ent_form::{Catalogue, Plain, resolve};
use ent_history::{Finding, Told};
use ent_tree::Script;
use ent_value::Refusal;
use std::alloc::{AllocError, Global};

/// The form of a script that has no fault.
fn form_of(alloc: Global, catalogue: &Catalogue, script: &Script) -> Result<Plain, AllocError>
    requires { script_faults catalogue.now.tables script.now ≡ [] }
    ensures { IfOk result (λ plain. script_in catalogue.now.tables script.now ≡ Ok plain) }
{
    match resolve(alloc, catalogue, script) {
        Ok(plain) => Ok(plain),
        Err(Refusal::Memory) => Err(AllocError),
        // It has no fault.
        Err(Refusal::Fault(_)) => unreachable!(),
    }
}

/// Runs a transaction alone, from the tables as they stand, and finds what is wrong with it first: of each statement
/// the grounding, then the answer. Where nothing is, the tables are as the transaction leaves them, and what its
/// entangled statements offer and demand stands behind the offers.
pub(crate) fn transaction_finding(
    alloc: Global,
    declared: &Declared<'_>,
    groundings: &Groundings<'_>,
    tx: u64,
    script: &Script,
    told: &Told,
    stage: &mut Stage,
) -> Result<Option<Finding>, AllocError>
    requires resolved { IsResolved declared.now script.now }
    requires seated { AreSeated groundings.now tx 1 script.now.statements }
    requires declared { StandAsDeclared declared.now (map arc_value stage.old.tables.items) }
    ensures replayed { let before = database_of declared.now (rows_in (map arc_value stage.old.tables.items)) in
        let after = database_of declared.now (rows_in (map arc_value stage.new.tables.items)) in
        let account = account_at tx script.now told.now in
        IfOk result (λ finding. IsReplayed declared.now groundings.now account before finding after
        stage.old.offers.items stage.new.offers.items) }
    ensures declared { IfOk result (λ finding. finding ≡ None
        → StandAsDeclared declared.now (map arc_value stage.new.tables.items)) }
{
    // Laws: what a form comes to, its statement does.
    forms_run_as_statements();
    let plain = form_of(alloc, declared.catalogue(), script)?;
    let forms = plain.statements.as_slice();
    let mut environment = Environment::new(alloc);
    for (index, form) in forms.iter().enumerate() {
        let statement = closed(alloc, form, &environment)?;
        let place = StatementPlace {
            tx,
            place: index as u64 + 1,
        };
        let answer = told.answers.as_slice().get(index);
        let finding = operation_finding(
            alloc,
            groundings,
            place,
            &statement,
            answer,
            &mut environment,
            stage,
        )?;
        if finding.is_some() {
            return Ok(finding);
        }
    }
    Ok(None)
}
