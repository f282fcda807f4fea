//! The fault of an input, and what is said of it.
use crate::script::{script_fault_told, script_in};
use anyhow::{Context, Result, anyhow};
use ent_fault_text::{Explanation, explain_fault, valid_text};
use ent_form::{Catalogue, FormFault, resolve};
use ent_input::{InputFault, read_input};
use ent_tree::Input;
use ent_value::Refusal;
use std::alloc::Global;

/// The fault of an input, or of a script behind declarations, which has one, explained.
pub(crate) fn fault_told(alloc: Global, row: &[u8]) -> Result<String> {
    match script_in(row) {
        Some(parts) => script_fault_told(alloc, parts),
        None => {
            let fault = fault_of(alloc, row)?;
            let explanation = explain_fault(alloc, valid_text(row), fault)?;
            told(alloc, fault, explanation)
        }
    }
}

/// The first fault of an input, which has one.
fn fault_of(alloc: Global, bytes: &[u8]) -> Result<InputFault> {
    match read_input(alloc, bytes) {
        Ok(input) => form_fault_of(alloc, &input),
        Err(refusal) => unread(refusal),
    }
}

fn form_fault_of(alloc: Global, input: &Input) -> Result<InputFault> {
    let catalogue = match Catalogue::of(alloc, &input.opening) {
        Ok(catalogue) => catalogue,
        Err(refusal) => return refused(refusal),
    };
    for script in input.scripts.as_slice() {
        match resolve(alloc, &catalogue, script) {
            Ok(_) => (),
            Err(refusal) => return refused(refusal),
        }
    }
    Err(anyhow!("the input has no fault"))
}

/// The fault for which a text isn't read.
pub(crate) fn unread(refusal: Refusal<InputFault>) -> Result<InputFault> {
    match refusal {
        Refusal::Fault(fault) => Ok(fault),
        Refusal::Memory => Err(anyhow!("out of memory")),
    }
}

pub(crate) fn refused(refusal: Refusal<FormFault>) -> Result<InputFault> {
    match refusal {
        Refusal::Fault(fault) => Ok(InputFault::Form(fault)),
        Refusal::Memory => Err(anyhow!("out of memory")),
    }
}

/// What the program says of a fault, and the explanation below it.
pub(crate) fn told(
    alloc: Global,
    fault: InputFault,
    explanation: Option<Explanation<'_>>,
) -> Result<String> {
    let number = fault.code();
    let offset = fault.place().context("the fault has no place")?;
    let explanation = explanation.context("the fault isn't explained")?;
    Ok(format!(in alloc; "E{number} at {offset}\n{explanation}\n")?)
}
