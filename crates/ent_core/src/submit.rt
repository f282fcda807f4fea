//! A script is submitted.
ghost use Rattle.std.specs.Prelude.{◌≡◌, ◌<◌, IfOk, IfErr, OnErr, OnOk, length};
ghost use Rattle.ent_value.specs.Refusal.{Gives};
ghost use Rattle.ent_core.specs.Kept.{IsKeptState};
ghost use Rattle.ent_core.specs.Reply.{reply_seen};
ghost use Rattle.ent_headline.specs.Resolved.{resolved_forms};
ghost use Rattle.ent_form.specs.Catalogue.{schemas_of};
ghost use Rattle.ent_protocol.specs.Run.{Submits};

use crate::reply::Reply;
use crate::store::Store;
use ent_form::{Catalogue, FormFault, resolve};
use ent_members::SubmittedScript;
use ent_protocol_laws::transactions_stand_once;
use ent_semantics::{Known, Statement};
use ent_tree::{MOST_SCRIPTS, MOST_STATEMENTS, Opening, Script};
use ent_value::{Limited, Refusal};
use std::alloc::{AllocError, AllocFailed, Global};

/// The statements of a script resolved over an opening, or its first fault.
fn resolved(
    alloc: Global,
    catalogue: &Catalogue,
    opening: &Opening,
    script: &Script,
) -> Result<Limited<Statement<Known>, MOST_STATEMENTS>, Refusal<FormFault>>
    requires { catalogue.now.tables ≡ schemas_of opening.now.tables }
    ensures { Gives (λ form. form) result (resolved_forms.resolve opening.now script.now) }
{
    let plain = resolve(alloc, catalogue, script)?;
    Ok(plain.statements)
}

/// Takes a script that may be taken.
pub(crate) fn submit(store: &mut Store, script: Script) -> Result<Reply, AllocFailed<Script>>
    requires kept { IsKeptState store.old }
    ensures ok { IfOk result (λ reply. Submits resolved_forms store.old script (reply_seen reply) store.new) }
    ensures err { OnErr result (store.new ≡ store.old) }
    ensures returned { IfErr result (λ refused. refused.value ≡ script) }
{
    // Law: each member's script was submitted.
    transactions_stand_once::<FormFault>();
    let before = store.submitted.len();
    if before >= MOST_SCRIPTS {
        return Ok(Reply::Full(script));
    }
    let form = match resolved(store.alloc, &store.catalogue, &store.opening, &script) {
        Ok(form) => form,
        Err(Refusal::Fault(fault)) => return Ok(Reply::Faulty(script, fault)),
        Err(Refusal::Memory) => return Err(AllocFailed { value: script }),
    };
    let own = SubmittedScript::new(store.alloc, script, form)?;
    let _asked = own.within();
    let tx = before as u64 + 1;
    if store.submitted.reserve(1).is_err() {
        return Err(AllocFailed {
            value: own.into_script(),
        });
    }
    match store.transaction_table.admit(tx) {
        Ok(()) => {
            store.submitted.push_reserved(own);
            Ok(Reply::Submitted(tx))
        }
        Err(AllocError) => Err(AllocFailed {
            value: own.into_script(),
        }),
    }
}
