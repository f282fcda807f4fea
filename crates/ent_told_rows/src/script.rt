//! The fault of one script over declarations, and what is said of it.
use crate::fault::{refused, told, unread};
use anyhow::{Result, anyhow, bail};
use ent_fault_text::{explain_script_fault, valid_text};
use ent_form::{Catalogue, resolve};
use ent_input::{InputFault, read_input, read_script};
use ent_tree::{Opening, Script};
use std::alloc::Global;

/// The line between the declarations and the script.
const BETWEEN: &str = "== script\n";

/// The declarations of a row, and its script, which may not be UTF-8.
#[derive(Clone, Copy, Debug)]
pub(crate) struct ScriptParts<'a> {
    declarations: &'a str,
    script: &'a [u8],
}

/// The parts of a row that has a script behind its declarations.
pub(crate) fn script_in<'a>(row: &'a [u8]) -> Option<ScriptParts<'a>> {
    let (declarations, _) = valid_text(row).split_once(BETWEEN)?;
    let script = row.get(declarations.len().saturating_add(BETWEEN.len())..)?;
    Some(ScriptParts {
        declarations,
        script,
    })
}

/// What is said of the fault of a script, which has one: its number and place, and the explanation below them.
pub(crate) fn script_fault_told(alloc: Global, parts: ScriptParts<'_>) -> Result<String> {
    let input = match read_input(alloc, parts.declarations.as_bytes()) {
        Ok(input) => input,
        Err(_) => bail!("the declarations can't be read"),
    };
    let text = valid_text(parts.script);
    let fault = fault_of_script(alloc, &input.opening, parts.script)?;
    let explanation = explain_script_fault(alloc, &input.opening, text, fault)?;
    told(alloc, fault, explanation)
}

/// The first fault of a script, which has one.
fn fault_of_script(alloc: Global, opening: &Opening, bytes: &[u8]) -> Result<InputFault> {
    match read_script(alloc, bytes) {
        Ok(script) => form_fault_of_script(alloc, opening, &script),
        Err(refusal) => unread(refusal),
    }
}

fn form_fault_of_script(alloc: Global, opening: &Opening, script: &Script) -> Result<InputFault> {
    let catalogue = match Catalogue::of(alloc, opening) {
        Ok(catalogue) => catalogue,
        Err(refusal) => return refused(refusal),
    };
    match resolve(alloc, &catalogue, script) {
        Ok(_) => Err(anyhow!("the script has no fault")),
        Err(refusal) => refused(refusal),
    }
}
