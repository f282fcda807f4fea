//! A component of what is posted is answered.
ghost use Rattle.std.specs.Prelude.{◌≡◌, [], false, true, IfOk, OnOk};
ghost use Rattle.ent_protocol_laws.specs.Idle.{IsAnswered};
ghost use Rattle.ent_protocol.specs.Event.{Nothing, Pick};
ghost use Rattle.ent_core.specs.Passed.{resolved_forms};
ghost use Rattle.ent_sched.specs.Onward.{TicksOn};
ghost use Rattle.ent_sched.specs.Progress.{IsJustLent, UsesUp};
ghost use Rattle.ent_sched.specs.Watching.{IsWatchedInRun};

use crate::counted::Counted;
use crate::law::events_add_up;
use crate::watcher::Watcher;
use ent_core::Reply;
use ent_eval::{Done, evaluate};
use ent_form::FormFault;
use ent_job::Job;
use ent_protocol_laws::{
    jobs_are_lent_by_replies, progress_uses_up, results_are_taken_at_once, steps_stay_within,
};
use std::alloc::{AllocError, Global};

/// Hands in the result of the job of the component that was just picked: the members have their answers, or there is
/// no choice. Where memory runs out the job stays lent.
fn join_answer<W: Watcher>(
    counted: &mut Counted,
    watcher: &mut W,
    done: Done,
) -> Result<(), AllocError>
    requires lent { IsJustLent resolved_forms Pick done.job counted.old.core }
    ensures events { TicksOn resolved_forms 1 counted.old counted.new }
    ensures watched { IsWatchedInRun resolved_forms W.hears counted.old counted.new watcher.old watcher.new }
    ensures none_lent { OnOk result (counted.new.core.lent ≡ []) }
    ensures progress { OnOk result (UsesUp counted.old.core counted.new.core) }
{
    events_add_up::<FormFault>();
    jobs_are_lent_by_replies::<FormFault>();
    results_are_taken_at_once::<FormFault>();
    progress_uses_up::<FormFault>();
    counted.is_reached();
    match counted.join_answer_at_once(watcher, done) {
        Ok(reply) => {
            drop(reply);
            Ok(())
        }
        Err(refused) => {
            drop(refused);
            Err(AllocError)
        }
    }
}

/// Does the job of the component that was just picked, and hands its result in. Where memory runs out the job stays
/// lent.
fn answer<W: Watcher>(
    alloc: Global,
    counted: &mut Counted,
    watcher: &mut W,
    job: Job,
) -> Result<(), AllocError>
    requires lent { IsJustLent resolved_forms Pick job counted.old.core }
    ensures events { TicksOn resolved_forms 1 counted.old counted.new }
    ensures watched { IsWatchedInRun resolved_forms W.hears counted.old counted.new watcher.old watcher.new }
    ensures none_lent { OnOk result (counted.new.core.lent ≡ []) }
    ensures progress { OnOk result (UsesUp counted.old.core counted.new.core) }
{
    events_add_up::<FormFault>();
    counted.is_reached();
    match evaluate(alloc, job) {
        Ok(done) => join_answer(counted, watcher, done),
        Err(refused) => {
            drop(refused);
            Err(AllocError)
        }
    }
}

/// A component is picked, where there is one, and answered at once. Whether there was one. Where memory runs out the
/// events that were made stand.
pub(crate) fn answer_component<W: Watcher>(
    alloc: Global,
    counted: &mut Counted,
    watcher: &mut W,
) -> Result<bool, AllocError>
    requires none_lent { counted.old.core.lent ≡ [] }
    ensures events { TicksOn resolved_forms 2 counted.old counted.new }
    ensures watched { IsWatchedInRun resolved_forms W.hears counted.old counted.new watcher.old watcher.new }
    ensures none_lent { OnOk result (counted.new.core.lent ≡ []) }
    ensures progress { IfOk result (λ moved. moved ≡ true → UsesUp counted.old.core counted.new.core) }
    ensures idle { IfOk result (λ moved. moved ≡ false
        → (counted.new.core ≡ counted.old.core) × IsAnswered resolved_forms counted.old.core Pick Nothing) }
{
    events_add_up::<FormFault>();
    steps_stay_within::<FormFault>();
    counted.is_reached();
    let reply = counted.pick(watcher)?;
    match reply {
        Reply::Lent(job) => {
            answer(alloc, counted, watcher, job)?;
            Ok(true)
        }
        other => {
            drop(other);
            Ok(false)
        }
    }
}
