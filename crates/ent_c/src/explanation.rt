//! What is said of a fault.
ghost use Rattle.std.specs.Prelude.{◌≡◌, ◌++◌, ◌∷◌, [], IfOk};
ghost use Rattle.std.specs.String.{string_bytes};
ghost use Rattle.ent_c.specs.Text.{IsSaidOf};
ghost use Rattle.ent_engine.specs.Fault.{line_text};
ghost use Rattle.ent_engine.specs.declared.fault.RunFault.TheVariants.{Input};

use ent_engine::{FaultLine, RunFault};
use ent_fault_text::{Explanation, explain_fault, explain_script_fault, valid_text};
use ent_input::InputFault;
use ent_tree::Opening;
use std::alloc::{AllocError, Global};

/// What `entangle run --explain` says of a fault of these bytes: the line that names it, and below it, where the fault
/// is one of the input, where it stands, what is wrong there, and what helps.
pub(crate) fn explanation_of(
    alloc: Global,
    input: &[u8],
    fault: RunFault,
) -> Result<String, AllocError>
    ensures { IfOk result (λ text. IsSaidOf fault (string_bytes text)) }
{
    let explanation = match fault {
        RunFault::Input(fault) => explain_fault(alloc, valid_text(input), fault)?,
        _ => None,
    };
    said(alloc, fault, explanation)
}

/// The same of a fault of a script, which stands alone in these bytes. The declared tables are those of an opening.
pub(crate) fn script_explanation_of(
    alloc: Global,
    opening: &Opening,
    script: &[u8],
    fault: InputFault,
) -> Result<String, AllocError>
    ensures { IfOk result (λ text. IsSaidOf (Input fault) (string_bytes text)) }
{
    let explanation = explain_script_fault(alloc, opening, valid_text(script), fault)?;
    said(alloc, RunFault::Input(fault), explanation)
}

/// The line that names a fault, and its explanation below that, if it has one.
fn said(
    alloc: Global,
    fault: RunFault,
    explanation: Option<Explanation<'_>>,
) -> Result<String, AllocError>
    ensures { IfOk result (λ text. IsSaidOf fault (string_bytes text)) }
{
    let mut text = first_line(alloc, fault)?;
    if let Some(explanation) = explanation {
        let rest = format!(in alloc; "{explanation}\n")?;
        text.push_str(rest.as_str())?;
    }
    Ok(text)
}

/// The line that names a fault.
fn first_line(alloc: Global, fault: RunFault) -> Result<String, AllocError>
    ensures { IfOk result (λ line. string_bytes line ≡ line_text fault ++ 10 ∷ []) }
{
    let line = FaultLine(fault);
    format!(in alloc; "{line}\n")
}
