//! What the reply to an event tells, and which jobs are lent behind it.
ghost use Rattle.std.specs.Prelude.{◌≡◌, ◌<◌, ◌+◌, IfErr, IfOk, List, OnErr, Some, length, slice_get};
ghost use Rattle.ent_core.specs.Passed.{resolved_forms};
ghost use Rattle.ent_core.specs.Reply.{reply_seen};
ghost use Rattle.ent_desk.specs.Advance.{advance_in};
ghost use Rattle.ent_desk.specs.Lending.{IsLeftBehind, IsLentBehind, coming_in, gone_in, is_ended, is_single, is_stale};
ghost use Rattle.ent_desk.specs.Lending.{left_in};
ghost use Rattle.ent_stamp.specs.Stamps.{AreStampsBehind};
ghost use Rattle.ent_protocol.specs.Job.{Job};
ghost use Rattle.ent_protocol.specs.Step.{Step};

use crate::advance::{Advance, moved_unless_idle};
use ent_core::{Core, Reply};
use ent_eval::{Done, Work};
use ent_group::Members;
use ent_stamp::{LentStamps, Naming, StampedJob};
use std::alloc::AllocFailed;

/// The members who went by an event, by their numbers, where any went.
fn gone_in(reply: &Reply) -> Option<Members>
    ensures { result ≡ gone_in (reply_seen reply.now) }
{
    match reply {
        Reply::RolledBack(group) | Reply::Failed(_, group) | Reply::Broken(_, group) => {
            Some(group.unpacked())
        }
        _ => None,
    }
}

fn is_ended(reply: &Reply) -> bool
    ensures { result ≡ is_ended (reply_seen reply.now) }
{
    match reply {
        Reply::Ended(_) => true,
        _ => false,
    }
}

fn is_stale(reply: &Reply) -> bool
    ensures { result ≡ is_stale (reply_seen reply.now) }
{
    match reply {
        Reply::Stale(_) => true,
        _ => false,
    }
}

/// Of the jobs that were lent before an event those that the event left are lent.
fn keep_left<L: Naming>(core: &Core, known: &mut LentStamps<L>, reply: &Reply)
    ensures { (before : List Job) → core.now.lent ≡ left_in (reply_seen reply.now) before
        → AreStampsBehind known.old.older known.old.stamps.items before
        → AreStampsBehind known.new.older known.new.stamps.items core.now.lent }
{
    if is_ended(reply) {
        known.forget(core.lent_count());
        return;
    }
    if let Some(gone) = gone_in(reply) {
        known.leave(&gone, core.lent_count());
    }
}

/// What the reply to an event brings that took no result: a job to do, which gets a stamp, or that something moved;
/// None if nothing did.
pub(crate) fn advance_told<L: Naming>(
    core: &Core,
    known: &mut LentStamps<L>,
    reply: Reply,
) -> Option<Advance<StampedJob<L>>>
    ensures tells { result ≡ advance_in (reply_seen reply) }
    ensures known { (before : List Job) → IsLentBehind (reply_seen reply) before core.now.lent
        → AreStampsBehind known.old.older known.old.stamps.items before
        → AreStampsBehind known.new.older known.new.stamps.items core.now.lent }
{
    match reply {
        Reply::Lent(job) => Some(Advance::Lent(known.lend(job, core.lent_count()))),
        other => {
            keep_left(core, known, &other);
            moved_unless_idle(&other)
        }
    }
}

/// Behind a result whose job stood at an index: unless the result is stale, that job is lent no more.
pub(crate) fn keep_up<L: Naming>(
    core: &Core,
    known: &mut LentStamps<L>,
    index: usize,
    reply: &Reply,
)
    requires there { index < known.old.older + length known.old.stamps.items }
    ensures known { (before : List Job) → IsLeftBehind (reply_seen reply.now) index before core.now.lent
        → AreStampsBehind known.old.older known.old.stamps.items before
        → AreStampsBehind known.new.older known.new.stamps.items core.now.lent }
{
    if !is_stale(reply) {
        known.take(index);
    }
    keep_left(core, known, reply);
}

/// Whether a result is of the job of one statement, and not of a joint one.
fn is_single(done: &Done) -> bool
    ensures { result ≡ is_single done.now.job.work }
{
    match done.job().work() {
        Work::One(_) => true,
        Work::Joint(_) => false,
    }
}

/// Takes the result of a lent job, of which the index is known.
pub(crate) fn take_in(core: &mut Core, index: usize, done: Done) -> Result<Reply, AllocFailed<Done>>
    requires { slice_get core.old.lent index ≡ Some done.job }
    ensures ok { IfOk result (λ reply. Step resolved_forms core.old (coming_in done) (reply_seen reply) core.new) }
    ensures err { OnErr result (core.new ≡ core.old) }
    ensures returned { IfErr result (λ refused. refused.value ≡ done) }
{
    if is_single(&done) {
        core.finish_at(index, done)
    } else {
        core.join_answer_at(index, done)
    }
}
