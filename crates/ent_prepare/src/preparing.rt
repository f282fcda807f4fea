//! From a text and bound values to a script that can be submitted.
ghost use Rattle.std.specs.Prelude.{◌≡◌, ℕ, IfErr, IfOk, OnOk};
ghost use Rattle.ent_form.specs.Catalogue.{schemas_of};
ghost use Rattle.ent_form.specs.OpeningFault.{opening_fault, unless};
ghost use Rattle.ent_prepare.specs.Prepared.{HasForm, IsPrepared, IsRefused, RefusesForm};
ghost use Rattle.ent_value.specs.Refusal.{Gives};

use crate::binding::bound_of;
use crate::cache::{Cache, empty};
use crate::fault::PrepareFault;
use ent_bound::BoundVariable;
use ent_form::{Catalogue, FormFault, resolve};
use ent_input::InputFault;
use ent_tree::{Opening, Script};
use ent_value::Refusal;
use std::alloc::Global;
use std::marker::Model;

/// The tables over which texts are prepared. Contracts see their schemas. The last texts are kept with the scripts that
/// they read as: of these only the values and the form are new work.
#[derive(Drop)]
pub struct Preparing {
    alloc: Global,
    catalogue: Catalogue,
    read: Cache,
}

impl Model for Preparing {
    ghost use Rattle.std.specs.Prelude.{List};
    ghost use Rattle.ent_form.specs.declared.catalogue.TableSchema.{TableSchema};
    ghost use Rattle.ent_prepare.specs.Cached.{AreRead};

    ghost Value = { List TableSchema };

    ghost view = { λ preparing. preparing.catalogue.tables };

    ghost invariant = { λ preparing. AreRead preparing.read.entries };
}

impl Preparing {
    /// Over the tables that an opening declares; or the first fault of its declarations and rows.
    pub fn of(alloc: Global, opening: &Opening) -> Result<Self, Refusal<FormFault>>
        ensures { Gives (λ preparing. preparing) result
            (unless (opening_fault opening.now) (schemas_of opening.now.tables)) }
    {
        Ok(Preparing {
            alloc,
            catalogue: Catalogue::of(alloc, opening)?,
            read: empty(alloc)?,
        })
    }

    /// The script that a text reads as, with these values bound in it, which has no fault of form, in however many runs
    /// it may take part; or the first fault: of the text, as a script alone, else of the variables, else of the form.
    pub fn prepare(
        &mut self,
        text: &[u8],
        variables: &[BoundVariable],
    ) -> Result<Script, Refusal<PrepareFault>>
        ensures ok { IfOk result (λ script. IsPrepared self.old text.now variables.now script) }
        ensures formed { IfOk result (λ script. (runs : ℕ) → HasForm self.old (record script { within = runs })) }
        ensures refused { IfErr result (λ refusal. IsRefused self.old text.now variables.now refusal) }
        ensures same { self.new ≡ self.old }
    {
        let script = bound_of(self.alloc, &mut self.read, text, variables)?;
        check(self.alloc, &self.catalogue, &script)?;
        Ok(script)
    }
}

/// Looks for faults of form.
fn check(alloc: Global, catalogue: &Catalogue, script: &Script) -> Result<(), Refusal<PrepareFault>>
    ensures ok { OnOk result (HasForm catalogue.now.tables script.now) }
    ensures refused { IfErr result (λ refusal. RefusesForm catalogue.now.tables script.now refusal) }
{
    match resolve(alloc, catalogue, script) {
        Ok(_) => Ok(()),
        Err(Refusal::Memory) => Err(Refusal::Memory),
        Err(Refusal::Fault(fault)) => {
            Err(Refusal::Fault(PrepareFault::Text(InputFault::Form(fault))))
        }
    }
}
