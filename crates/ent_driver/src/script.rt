//! A script is taken, by its text alone.
ghost use Rattle.std.specs.Prelude.{◌≡◌, IfErr, IfOk, None, OnErr, OnOk};
ghost use Rattle.ent_driver.specs.Scripts.{HasForm, IsNotTaken, RefusesOver, Takes};
ghost use Rattle.ent_form.specs.OpeningFault.{opening_fault};
ghost use Rattle.ent_protocol.specs.Reached.{book_of};
ghost use Rattle.ent_semantics.specs.Book.{IsLegal};

use crate::fault::DriverFault;
use ent_core::{Core, Reply};
use ent_form::{Catalogue, resolve};
use ent_group::Tx;
use ent_input::{InputFault, read_script};
use ent_tree::Opening;
use ent_value::Refusal;
use std::alloc::Global;

/// Whether bytes are one script without a fault over the tables of an opening; else their first fault.
pub fn examine(alloc: Global, opening: &Opening, bytes: &[u8]) -> Result<(), Refusal<InputFault>>
    requires { opening_fault opening.now ≡ None }
    ensures ok { OnOk result (HasForm opening.now bytes.now) }
    ensures refused { IfErr result (λ refusal. RefusesOver opening.now bytes.now refusal) }
{
    let script = read_script(alloc, bytes)?;
    let catalogue = match Catalogue::of(alloc, opening) {
        Ok(catalogue) => catalogue,
        Err(Refusal::Memory) => return Err(Refusal::Memory),
        Err(Refusal::Fault(_)) => unreachable!(),
    };
    match resolve(alloc, &catalogue, &script) {
        Ok(_) => Ok(()),
        Err(Refusal::Memory) => Err(Refusal::Memory),
        Err(Refusal::Fault(fault)) => Err(Refusal::Fault(InputFault::Form(fault))),
    }
}

/// Takes the script that bytes are, which then waits for a run, and answers its number. At a refusal nothing changes.
pub(crate) fn submit(alloc: Global, core: &mut Core, bytes: &[u8]) -> Result<Tx, DriverFault>
    ensures ok { IfOk result (λ tx. Takes bytes.now core.old tx core.new) }
    ensures err { OnErr result (core.new ≡ core.old) }
    ensures refused { IfErr result (λ fault. IsNotTaken bytes.now core.old fault) }
    ensures legal { IsLegal (book_of core.old) → IsLegal (book_of core.new) }
{
    let script = read_script(alloc, bytes)?;
    match core.submit(script)? {
        Reply::Submitted(tx) => Ok(tx),
        Reply::Full(script) => {
            drop(script);
            Err(DriverFault::Full)
        }
        Reply::Faulty(script, fault) => {
            drop(script);
            Err(DriverFault::Text(InputFault::Form(fault)))
        }
        // No other reply is made to a submit.
        other => {
            drop(other);
            Err(DriverFault::Memory)
        }
    }
}
