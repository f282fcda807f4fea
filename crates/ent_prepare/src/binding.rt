//! A text and the values that are bound in its script.
ghost use Rattle.std.specs.Prelude.{◌≡◌, IfErr, IfOk, None};
ghost use Rattle.ent_bound.specs.Bound.{bound_script};
ghost use Rattle.ent_bound.specs.Refused.{first_fault};
ghost use Rattle.ent_input.specs.Reading.{IsScript};
ghost use Rattle.ent_prepare.specs.Cached.{AreRead};
ghost use Rattle.ent_prepare.specs.Prepared.{IsBound, RefusesBinding, RefusesBound, RefusesReading};

use crate::cache::{Cache, keep, kept, touch};
use crate::fault::PrepareFault;
use ent_bound::{BoundVariable, bound};
use ent_input::read_script;
use ent_tree::Script;
use ent_value::Refusal;
use std::alloc::Global;

/// The script that a text reads as.
fn script_of(alloc: Global, text: &[u8]) -> Result<Script, Refusal<PrepareFault>>
    ensures script { IfOk result (λ script. IsScript text.now script) }
    ensures refused { IfErr result (λ refusal. RefusesReading text.now refusal) }
{
    match read_script(alloc, text) {
        Ok(script) => Ok(script),
        Err(Refusal::Memory) => Err(Refusal::Memory),
        Err(Refusal::Fault(fault)) => Err(Refusal::Fault(PrepareFault::Text(fault))),
    }
}

/// A copy of a script with these values bound in it.
fn bound_in(
    alloc: Global,
    script: &Script,
    variables: &[BoundVariable],
) -> Result<Script, Refusal<PrepareFault>>
    ensures bound { IfOk result (λ made. made ≡ bound_script variables.now script.now) }
    ensures bindable { IfOk result (λ made. first_fault variables.now script.now ≡ None) }
    ensures refused { IfErr result (λ refusal. RefusesBinding variables.now script.now refusal) }
{
    match bound(alloc, script, variables) {
        Ok(made) => Ok(made),
        Err(Refusal::Memory) => Err(Refusal::Memory),
        Err(Refusal::Fault(fault)) => Err(Refusal::Fault(PrepareFault::Binding(fault))),
    }
}

/// The script that a text reads as, with these values bound in it; or the first fault. The text is kept with its
/// script.
pub(crate) fn bound_of(
    alloc: Global,
    cache: &mut Cache,
    text: &[u8],
    variables: &[BoundVariable],
) -> Result<Script, Refusal<PrepareFault>>
    requires { AreRead cache.old.entries }
    ensures ok { IfOk result (λ made. IsBound text.now variables.now made) }
    ensures refused { IfErr result (λ refusal. RefusesBound text.now variables.now refusal) }
    ensures kept { AreRead cache.new.entries }
{
    touch(cache, text);
    if let Some(script) = kept(cache, text) {
        return bound_in(alloc, script, variables);
    }
    let script = script_of(alloc, text)?;
    let made = bound_in(alloc, &script, variables);
    keep(alloc, cache, text, script);
    made
}
