//! A run ends.
ghost use Rattle.std.specs.Prelude.{◌≡◌, IfOk, OnErr};
ghost use Rattle.ent_core.specs.Kept.{IsKeptState};
ghost use Rattle.ent_core.specs.Reply.{reply_seen};
ghost use Rattle.ent_protocol.specs.Run.{Ends};
ghost use Rattle.ent_waits.specs.Quiet.{IsReasonIfAny};

use crate::reply::Reply;
use crate::store::Store;
use crate::take_out::end;
use ent_form::FormFault;
use ent_protocol_laws::{
    attempts_stay_within, scripts_are_few, transactions_are_counted, transactions_stand_once,
};
use ent_tree::Boxed;
use ent_waits::{Reason, reason_of};
use std::alloc::AllocError;

/// Why the run can't end yet; no reason where it is quiet.
fn reason_now(store: &Store) -> Result<Option<Reason>, AllocError>
    ensures { IfOk result (λ reason. IsReasonIfAny store.now reason) }
{
    reason_of(
        store.alloc,
        &store.run,
        store.submitted.as_slice(),
        &store.pool,
        store.tried.as_slice(),
        store.lent.as_slice(),
    )
}

/// Ends the run, where one is on and it is quiet.
pub(crate) fn end_run(store: &mut Store) -> Result<Reply, AllocError>
    requires kept { IsKeptState store.old }
    ensures ok { IfOk result (λ reply. Ends store.old (reply_seen reply) store.new) }
    ensures err { OnErr result (store.new ≡ store.old) }
{
    transactions_are_counted::<FormFault>();
    transactions_stand_once::<FormFault>();
    attempts_stay_within::<FormFault>();
    scripts_are_few::<FormFault>();
    if !store.running {
        return Ok(Reply::NotNow);
    }
    match reason_now(store)? {
        Some(why) => {
            let reason = Boxed::new(store.alloc, why)?;
            Ok(Reply::Busy(reason))
        }
        None => {
            let members = end(store);
            Ok(Reply::Ended(members))
        }
    }
}
