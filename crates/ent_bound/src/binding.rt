//! Values that a caller binds go into a script.
ghost use Rattle.std.specs.Prelude.{◌≡◌, IfErr, IfOk, None, length};
ghost use Rattle.ent_bound.specs.Bound.{bound_script};
ghost use Rattle.ent_bound.specs.Refused.{first_fault, variable_fault, IsRefusedFor};

use crate::fault::BindingFault;
use crate::part::Part;
use crate::setting::is_set;
use crate::variable::{BoundVariable, is_bound};
use ent_tree::Script;
use ent_value::{Name, Refusal};
use std::alloc::Global;

/// A script that nothing was bound in, as it was handed in, and why.
#[derive(Drop)]
pub struct NotBound {
    pub script: Script,
    pub refusal: Refusal<BindingFault>,
}

/// What is wrong with a variable behind earlier ones.
fn variable_fault(script: &Script, earlier: &[BoundVariable], name: &Name) -> Option<BindingFault>
    ensures { result ≡ variable_fault script.now earlier.now name.now }
{
    let number = earlier.len();
    if is_bound(earlier, name) {
        return Some(BindingFault::Twice(number));
    }
    if is_set(script, name) {
        return Some(BindingFault::SetByScript(number));
    }
    if script.uses(name) {
        return None;
    }
    Some(BindingFault::Unused(number))
}

/// The first fault of some variables.
fn first_fault(variables: &[BoundVariable], script: &Script) -> Option<BindingFault>
    ensures { result ≡ first_fault variables.now script.now }
{
    for (number, variable) in variables.iter().enumerate() {
        if let Some(fault) = variable_fault(script, &variables[..number], &variable.name) {
            return Some(fault);
        }
    }
    None
}

/// A copy of a script in which a literal of the bound value stands where each of these host variables stood, and which
/// is else the same, places included; or the first fault. The variables are looked at in the order in which they are
/// handed in: first whether an earlier one has the same name, then whether the script gives it a value itself, by SET
/// or by the AS of an entangled item, then whether the script uses it. A host variable that isn't bound stays.
pub fn bound(
    alloc: Global,
    script: &Script,
    variables: &[BoundVariable],
) -> Result<Script, Refusal<BindingFault>>
    ensures ok { IfOk result (λ made. made ≡ bound_script variables.now script.now) }
    ensures formed { IfOk result (λ made. first_fault variables.now script.now ≡ None) }
    ensures fault { IfErr result (λ refusal. IsRefusedFor (first_fault variables.now script.now) refusal) }
{
    if let Some(fault) = first_fault(variables, script) {
        return Err(Refusal::Fault(fault));
    }
    Ok(script.bound(alloc, variables)?)
}

/// The script itself, with literals in the place of host variables as [`bound`] puts them. Where nothing is bound it is
/// moved. At a refusal it comes back as it was.
pub fn bind(alloc: Global, script: Script, variables: &[BoundVariable]) -> Result<Script, NotBound>
    ensures ok { IfOk result (λ made. made ≡ bound_script variables.now script) }
    ensures formed { IfOk result (λ made. first_fault variables.now script ≡ None) }
    ensures fault { IfErr result (λ back. IsRefusedFor (first_fault variables.now script) back.refusal) }
    ensures returned { IfErr result (λ back. back.script ≡ script) }
{
    if variables.is_empty() {
        return Ok(script);
    }
    match bound(alloc, &script, variables) {
        Ok(made) => Ok(made),
        Err(refusal) => Err(NotBound { script, refusal }),
    }
}
