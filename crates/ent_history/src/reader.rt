//! The script of a report.
ghost use Rattle.std.specs.Prelude.{◌≡◌, ◌↔◌, IfOk, IsTrue, []};
ghost use Rattle.ent_print.specs.Printing.{script_text};
ghost use Rattle.ent_form.specs.Catalogue.{schemas_of};
ghost use Rattle.ent_form.specs.ScriptFaults.{script_faults};
ghost use Rattle.ent_history.specs.declared.history.History.{History};
ghost use Rattle.ent_history.specs.Read.{IsRead};

use crate::only::only_script;
use ent_form::{Catalogue, resolve};
use ent_print::print_script;
use ent_tree::Script;
use ent_value::Refusal;
use std::alloc::{AllocError, Global};

/// Whether the text is the script's as it is printed.
fn is_printed(alloc: Global, script: &Script, text: &str) -> Result<bool, AllocError>
    ensures { IfOk result (λ printed. IsTrue printed ↔ (text.now ≡ script_text script.now)) }
{
    let printed = print_script(alloc, script)?;
    Ok(printed.as_slice() == text.as_bytes())
}

/// Whether the script has no fault of form over the tables.
fn is_faultless(alloc: Global, catalogue: &Catalogue, script: &Script) -> Result<bool, AllocError>
    ensures { IfOk result (λ faultless.
        IsTrue faultless ↔ (script_faults catalogue.now.tables script.now ≡ [])) }
{
    match resolve(alloc, catalogue, script) {
        Ok(_) => Ok(true),
        Err(Refusal::Memory) => Err(AllocError),
        Err(Refusal::Fault(_)) => Ok(false),
    }
}

/// The script whose lines these are: `text` is what stands below a `script` line of a report, each line with its LF,
/// and the catalogue is that of the report's opening. None where no script that the report can show has this text:
/// where it isn't just as such a script is printed, or the script has a fault of form.
pub fn read_script(
    alloc: Global,
    catalogue: &Catalogue,
    text: &str,
) -> Result<Option<Script>, AllocError>
    ensures { (told : History) → catalogue.now.tables ≡ schemas_of told.opening.tables
        → IfOk result (IsRead told text.now) }
{
    let Some(script) = only_script(alloc, text)? else {
        return Ok(None);
    };
    if is_printed(alloc, &script, text)? && is_faultless(alloc, catalogue, &script)? {
        Ok(Some(script))
    } else {
        Ok(None)
    }
}
