//! A run starts.
ghost use Rattle.std.specs.Prelude.{◌≡◌, IfOk, OnErr};
ghost use Rattle.ent_core.specs.Kept.{IsKeptState};
ghost use Rattle.ent_core.specs.Reply.{reply_seen};
ghost use Rattle.ent_protocol.specs.Run.{Starts};

use crate::packed_members::PackedMembers;
use crate::reply::Reply;
use crate::store::Store;
use ent_form::FormFault;
use ent_group::MOST_MEMBERS;
use ent_headline::{
    resolved_entangled_statements_are_answered_once, resolved_journals_fit_the_fates,
};
use ent_protocol_laws::scripts_are_few;
use ent_run::Run;
use std::alloc::AllocError;

/// Starts a run of the first of the dormant list, where none is on and somebody is dormant.
pub(crate) fn start_run(store: &mut Store) -> Result<Reply, AllocError>
    requires kept { IsKeptState store.old }
    ensures ok { IfOk result (λ reply. Starts store.old (reply_seen reply) store.new) }
    ensures err { OnErr result (store.new ≡ store.old) }
{
    // Laws: whoever stands in a joint answer is a member or has an entry, an entry's transaction has a fate, and
    // numbers are small.
    resolved_entangled_statements_are_answered_once();
    resolved_journals_fit_the_fates();
    scripts_are_few::<FormFault>();
    if store.running {
        return Ok(Reply::NotNow);
    }
    let waiting = store.transaction_table.dormant_len();
    if waiting == 0 {
        return Ok(Reply::Absent);
    }
    let count = waiting.min(MOST_MEMBERS);
    let entrants = store.transaction_table.first_dormant(store.alloc, count)?;
    let run = Run::start(store.alloc, entrants.as_slice())?;
    let numbers = run.numbers();
    let members = PackedMembers::of(&numbers);
    store.transaction_table.take_first(count);
    store.tried.clear();
    store.run = run;
    store.settled = store.joints.len();
    store.running = true;
    Ok(Reply::Started(members))
}
