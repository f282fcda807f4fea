//! Turns of members.
ghost use Rattle.std.specs.Prelude.{◌≡◌, ◌*◌, ℕ, [], false, true, IfOk, OnOk, Some, length};
ghost use Rattle.std.specs.List.{AllByRecursion};
ghost use Rattle.ent_protocol_laws.specs.Idle.{IsHeldUp};
ghost use Rattle.ent_protocol.specs.Event.{Begin};
ghost use Rattle.ent_protocol.specs.Lookup.{Ready, Turn, running_members, standing};
ghost use Rattle.ent_core.specs.Begin.{IsFreeMember};
ghost use Rattle.ent_core.specs.Passed.{resolved_forms};
ghost use Rattle.ent_sched.specs.Onward.{TicksOn};
ghost use Rattle.ent_sched.specs.Progress.{IsJustLent, UsesUp};
ghost use Rattle.ent_sched.specs.Watching.{IsWatchedInRun};

use crate::counted::Counted;
use crate::law::events_add_up;
use crate::progress::told_of_progress;
use crate::watcher::Watcher;
use ent_core::{BeginRefusal, FreeMember, Reply};
use ent_eval::{Done, evaluate};
use ent_form::FormFault;
use ent_group::Tx;
use ent_job::Job;
use ent_protocol::refusals_change_nothing;
use ent_protocol_laws::{
    jobs_are_lent_by_replies, progress_uses_up, ready_members_are_answered,
    results_are_taken_at_once, steps_stay_within,
};
use std::alloc::{AllocError, Global};

/// Hands in the result of the job that was just lent to a member: its statement is done, or its group is rolled back.
/// Where memory runs out the job stays lent.
fn finish<W: Watcher>(counted: &mut Counted, watcher: &mut W, done: Done) -> Result<(), AllocError>
    requires lent { (tx : ℕ) × IsJustLent resolved_forms (Begin tx) done.job counted.old.core }
    ensures events { TicksOn resolved_forms 1 counted.old counted.new }
    ensures watched { IsWatchedInRun resolved_forms W.hears counted.old counted.new watcher.old watcher.new }
    ensures none_lent { OnOk result (counted.new.core.lent ≡ []) }
    ensures progress { OnOk result (UsesUp counted.old.core counted.new.core) }
{
    events_add_up::<FormFault>();
    jobs_are_lent_by_replies::<FormFault>();
    results_are_taken_at_once::<FormFault>();
    progress_uses_up::<FormFault>();
    counted.is_reached();
    match counted.finish_at_once(watcher, done) {
        Ok(reply) => {
            drop(reply);
            Ok(())
        }
        Err(refused) => {
            drop(refused);
            Err(AllocError)
        }
    }
}

/// Does the job that was just lent to a member, and hands its result in. Where memory runs out the job stays lent.
fn carry_out<W: Watcher>(
    alloc: Global,
    counted: &mut Counted,
    watcher: &mut W,
    job: Job,
) -> Result<(), AllocError>
    requires lent { (tx : ℕ) × IsJustLent resolved_forms (Begin tx) job counted.old.core }
    ensures events { TicksOn resolved_forms 1 counted.old counted.new }
    ensures watched { IsWatchedInRun resolved_forms W.hears counted.old counted.new watcher.old watcher.new }
    ensures none_lent { OnOk result (counted.new.core.lent ≡ []) }
    ensures progress { OnOk result (UsesUp counted.old.core counted.new.core) }
{
    events_add_up::<FormFault>();
    counted.is_reached();
    match evaluate(alloc, job) {
        Ok(done) => finish(counted, watcher, done),
        Err(refused) => {
            drop(refused);
            Err(AllocError)
        }
    }
}

/// A member that is free begins its next statement, and a job that is lent is carried out at once. Whether it moved.
/// Where memory runs out the events that were made stand.
fn begin<W: Watcher>(
    alloc: Global,
    counted: &mut Counted,
    watcher: &mut W,
    found: FreeMember,
) -> Result<bool, AllocError>
    requires none_lent { counted.old.core.lent ≡ [] }
    requires free { IsFreeMember counted.old.core found }
    requires ready { (turn : Turn) × (standing counted.old.core found.tx ≡ Some (Ready turn)) }
    ensures events { TicksOn resolved_forms 2 counted.old counted.new }
    ensures watched { IsWatchedInRun resolved_forms W.hears counted.old counted.new watcher.old watcher.new }
    ensures none_lent { OnOk result (counted.new.core.lent ≡ []) }
    ensures progress { IfOk result (λ moved. moved ≡ true → UsesUp counted.old.core counted.new.core) }
    ensures idle { IfOk result (λ moved. moved ≡ false
        → (counted.new.core ≡ counted.old.core) × IsHeldUp resolved_forms counted.old.core found.tx) }
{
    events_add_up::<FormFault>();
    jobs_are_lent_by_replies::<FormFault>();
    ready_members_are_answered::<FormFault>();
    progress_uses_up::<FormFault>();
    steps_stay_within::<FormFault>();
    refusals_change_nothing::<FormFault>();
    counted.is_reached();
    let reply = counted.begin(watcher, found)?;
    match reply {
        Reply::Lent(job) => {
            carry_out(alloc, counted, watcher, job)?;
            Ok(true)
        }
        other => Ok(told_of_progress(other)),
    }
}

/// One member's turn: where it is free it begins its next statement, and a job that is lent is carried out at once.
/// Whether it moved. Where memory runs out the events that were made stand.
fn turn<W: Watcher>(
    alloc: Global,
    counted: &mut Counted,
    watcher: &mut W,
    tx: Tx,
) -> Result<bool, AllocError>
    requires none_lent { counted.old.core.lent ≡ [] }
    ensures events { TicksOn resolved_forms 2 counted.old counted.new }
    ensures watched { IsWatchedInRun resolved_forms W.hears counted.old counted.new watcher.old watcher.new }
    ensures none_lent { OnOk result (counted.new.core.lent ≡ []) }
    ensures progress { IfOk result (λ moved. moved ≡ true → UsesUp counted.old.core counted.new.core) }
    ensures idle { IfOk result (λ moved. moved ≡ false
        → (counted.new.core ≡ counted.old.core) × IsHeldUp resolved_forms counted.old.core tx) }
{
    events_add_up::<FormFault>();
    counted.is_reached();
    match counted.free_member(tx) {
        Ok(found) => begin(alloc, counted, watcher, found),
        Err(refusal) => {
            if let BeginRefusal::Blocked(_) = refusal {
                counted.refuse_begin(watcher, tx, refusal);
            }
            Ok(false)
        }
    }
}

/// Each member of the run, by number, has its turn. Whether one of them moved.
pub(crate) fn take_turns<W: Watcher>(
    alloc: Global,
    counted: &mut Counted,
    watcher: &mut W,
) -> Result<bool, AllocError>
    requires none_lent { counted.old.core.lent ≡ [] }
    ensures events { TicksOn resolved_forms (2 * length (running_members counted.old.core)) counted.old counted.new }
    ensures watched { IsWatchedInRun resolved_forms W.hears counted.old counted.new watcher.old watcher.new }
    ensures none_lent { OnOk result (counted.new.core.lent ≡ []) }
    ensures progress { IfOk result (λ moved. moved ≡ true → UsesUp counted.old.core counted.new.core) }
    ensures idle { IfOk result (λ moved. moved ≡ false
        → (counted.new.core ≡ counted.old.core)
        × AllByRecursion (IsHeldUp resolved_forms counted.old.core) (running_members counted.old.core)) }
{
    events_add_up::<FormFault>();
    counted.is_reached();
    let members = counted.members();
    let mut moved = false;
    for tx in members.as_slice() {
        if turn(alloc, counted, watcher, *tx)? {
            moved = true;
        }
    }
    Ok(moved)
}
