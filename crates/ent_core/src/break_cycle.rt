//! A deadlock is broken.
ghost use Rattle.ent_core.specs.Kept.{IsKeptState};
ghost use Rattle.ent_core.specs.Reply.{reply_seen};
ghost use Rattle.ent_protocol.specs.Run.{BreaksIfAny};

use crate::packed_members::PackedMembers;
use crate::reply::Reply;
use crate::store::Store;
use crate::take_out::roll_back;
use ent_form::FormFault;
use ent_members::Cause;
use ent_protocol_laws::{
    attempts_stay_within, scripts_are_few, transactions_are_counted, transactions_stand_once,
};
use ent_waits::victim_of;

/// Rolls back the group of the first member of the deadlock, where there is one. It takes no memory.
pub(crate) fn break_cycle(store: &mut Store) -> Reply
    requires { IsKeptState store.old }
    ensures { BreaksIfAny store.old (reply_seen result) store.new }
{
    transactions_are_counted::<FormFault>();
    transactions_stand_once::<FormFault>();
    attempts_stay_within::<FormFault>();
    scripts_are_few::<FormFault>();
    match victim_of(
        &store.run,
        store.submitted.as_slice(),
        store.lent.as_slice(),
    ) {
        Some(victim) => {
            let cycle = PackedMembers::of(&victim.cycle);
            let group = roll_back(store, victim.group, Cause::NoOne);
            Reply::Broken(cycle, group)
        }
        None => Reply::NoCycle,
    }
}
