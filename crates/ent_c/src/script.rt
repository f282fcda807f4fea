//! What is said of a script that a driver refuses.
ghost use Rattle.std.specs.Prelude.{◌≡◌, IfErr, IfOk, IfSome, MatchOption, None};
ghost use Rattle.std.specs.String.{string_bytes};
ghost use Rattle.ent_driver.specs.Drives.{OfOpen};
ghost use Rattle.ent_driver.specs.Scripts.{HasForm, IsFaultOver};
ghost use Rattle.ent_driver.specs.declared.fault.DriverFault.TheVariants.{Memory};
ghost use Rattle.ent_engine.specs.declared.fault.RunFault.TheVariants.{Input};
ghost use Rattle.ent_form.specs.OpeningFault.{opening_fault};
ghost use Rattle.ent_c.specs.Calls.{Declines};
ghost use Rattle.ent_c.specs.Explaining.{ExplainsScript, HandsNothing, HandsSaid, IsFaultOf, IsScriptOf};
ghost use Rattle.ent_c.specs.Drivers.{behind};
ghost use Rattle.ent_c.specs.Text.{IsSaidOf};

use crate::DONE;
use crate::buffer::lay_over;
use crate::explanation::script_explanation_of;
use crate::handle::Handle;
use crate::told::CallTold;
use ent_driver::{Driver, DriverFault, examine};
use ent_engine::{RunFault, status_of};
use ent_input::InputFault;
use ent_tree::Opening;
use ent_value::Refusal;
use std::alloc::Global;

/// A fault, and what is said of it.
#[derive(Drop)]
struct Said {
    fault: InputFault,
    text: String,
}

/// What is said of the first fault of a script over the tables of an opening; nothing where it has no fault.
fn said_over(alloc: Global, opening: &Opening, script: &[u8]) -> Result<Option<Said>, DriverFault>
    requires { opening_fault opening.now ≡ None }
    ensures said { IfOk result (λ said. MatchOption said (HasForm opening.now script.now)
        (λ said. IsFaultOver opening.now script.now said.fault)) }
    ensures text { IfOk result (λ said. IfSome said (λ said. IsSaidOf (Input said.fault) (string_bytes said.text))) }
    ensures refused { IfErr result (λ fault. fault ≡ Memory) }
{
    match examine(alloc, opening, script) {
        Ok(()) => Ok(None),
        Err(Refusal::Memory) => Err(DriverFault::Memory),
        Err(Refusal::Fault(fault)) => {
            let text = script_explanation_of(alloc, opening, script, fault)?;
            Ok(Some(Said { fault, text }))
        }
    }
}

/// What is said of the first fault of a script over the tables of a driver's core; nothing where it has no fault.
fn said_of_script(
    alloc: Global,
    driver: &Driver,
    script: &[u8],
) -> Result<Option<Said>, DriverFault>
    ensures said { IfOk result (λ said. MatchOption said (IsScriptOf driver.now script.now)
        (λ said. IsFaultOf driver.now script.now said.fault)) }
    ensures text { IfOk result (λ said. IfSome said (λ said. IsSaidOf (Input said.fault) (string_bytes said.text))) }
    ensures refused { IfErr result (λ fault. OfOpen driver.now fault (λ s. fault ≡ Memory)) }
{
    match driver.opening() {
        Some(opening) => said_over(alloc, opening, script),
        None => Err(DriverFault::Vacant),
    }
}

/// Hands out what is said of a fault of a script, if it has one, or tells why nothing is.
fn hand_out_said(
    said: Result<Option<Said>, DriverFault>,
    script: &[u8],
    buffer: &mut [u8],
    told: &mut CallTold,
) -> i32
    ensures said { IfOk said (λ said. MatchOption said (HandsNothing buffer.old buffer.new told.new result)
        (λ said. HandsSaid (Input said.fault) (string_bytes said.text) script.now buffer.old buffer.new told.new result)) }
    ensures refused { IfErr said (λ fault. Declines fault script.now buffer.old buffer.new told.new result) }
{
    match said {
        Ok(None) => {
            *told = CallTold::text(0);
            DONE
        }
        Ok(Some(Said { fault, text })) => {
            let fault = RunFault::Input(fault);
            *told = CallTold::fault(script, fault, text.len());
            lay_over(text.as_bytes(), buffer);
            status_of(&fault) as i32
        }
        Err(fault) => {
            *told = CallTold::refusal(script, fault);
            fault.status() as i32
        }
    }
}

/// Hands out what is said of the fault of a script, as a submit would refuse it for; nothing is submitted.
#[unsafe(no_mangle)]
pub extern "C" fn ent_c_explain_script(
    alloc: Global,
    handle: &mut Handle,
    script: &[u8],
    buffer: &mut [u8],
    told: &mut CallTold,
) -> i32
    ensures same { handle.new.held ≡ handle.old.held }
    ensures text { ExplainsScript script.now (behind handle.old.held) buffer.old buffer.new told.new result }
{
    let Some(driver) = handle.take(alloc) else {
        return hand_out_said(Err(DriverFault::Vacant), script, buffer, told);
    };
    let said = said_of_script(alloc, &driver, script);
    handle.put(driver);
    hand_out_said(said, script, buffer, told)
}
