//! One run.
ghost use Rattle.std.specs.Prelude.{◌≡◌, ◌<◌, [], false, true, IfOk, OnErr, OnOk};
ghost use Rattle.ent_protocol_laws.specs.Idle.{IsIdleRound};
ghost use Rattle.ent_protocol_laws.specs.Tries.{tries_left};
ghost use Rattle.ent_protocol.specs.Reached.{CanClose};
ghost use Rattle.ent_core.specs.Passed.{resolved_forms};
ghost use Rattle.ent_sched.specs.Onward.{TicksOn};
ghost use Rattle.ent_sched.specs.Bounds.{events_of_run, run_start};
ghost use Rattle.ent_sched.specs.Watching.{IsRunWatched, IsWatchedInRun};

use crate::counted::Counted;
use crate::law::{events_add_up, events_use_up_tries};
use crate::rounds::rounds;
use crate::watcher::{Silent, Watcher};
use ent_form::FormFault;
use ent_protocol_laws::{idle_rounds_are_quiet, jobs_are_lent_by_replies};
use std::alloc::{AllocError, Global};

/// Starts a run, unless one is on, or nothing is dormant. Whether one is on then.
fn start<W: Watcher>(counted: &mut Counted, watcher: &mut W) -> Result<bool, AllocError>
    requires none_lent { counted.old.core.lent ≡ [] }
    ensures events { TicksOn resolved_forms 1 counted.old counted.new }
    ensures watched { IsRunWatched resolved_forms W.hears counted.old counted.new watcher.old watcher.new }
    ensures none_lent { counted.new.core.lent ≡ [] }
    ensures on { IfOk result (λ on. on ≡ true
        → (¬ CanClose counted.old.core)
        × (counted.new.core ≡ run_start counted.old.core)
        × (counted.new.core.running ≡ true)) }
    ensures off { IfOk result (λ on. on ≡ false
        → CanClose counted.old.core × (counted.new.core ≡ counted.old.core)) }
    ensures err { OnErr result (counted.new.core ≡ counted.old.core) }
{
    events_add_up::<FormFault>();
    counted.is_reached();
    if counted.running() {
        return Ok(true);
    }
    drop(counted.start_run(watcher)?);
    Ok(counted.running())
}

/// Ends a run in whose last round nothing moved.
fn end<W: Watcher>(counted: &mut Counted, watcher: &mut W) -> Result<(), AllocError>
    requires idle { IsIdleRound resolved_forms counted.old.core }
    ensures events { TicksOn resolved_forms 1 counted.old counted.new }
    ensures watched { IsWatchedInRun resolved_forms W.hears counted.old counted.new watcher.old watcher.new }
    ensures none_lent { OnOk result (counted.new.core.lent ≡ []) }
    ensures ended { OnOk result (counted.new.core.running ≡ false) }
{
    events_add_up::<FormFault>();
    idle_rounds_are_quiet::<FormFault>();
    jobs_are_lent_by_replies::<FormFault>();
    counted.is_reached();
    drop(counted.end_run(watcher)?);
    Ok(())
}

/// One run: it starts, unless one is on; then come rounds, until nothing moves in one; then it ends. Where no run is on
/// and nothing is dormant, nothing happens. Where memory runs out the events that were made stand. A watcher is told.
pub fn run_watched<W: Watcher>(
    alloc: Global,
    counted: &mut Counted,
    watcher: &mut W,
) -> Result<(), AllocError>
    requires none_lent { counted.old.core.lent ≡ [] }
    ensures events { TicksOn resolved_forms (events_of_run counted.old.core) counted.old counted.new }
    ensures watched { IsRunWatched resolved_forms W.hears counted.old counted.new watcher.old watcher.new }
    ensures none_lent { OnOk result (counted.new.core.lent ≡ []) }
    ensures ended { OnOk result (counted.new.core.running ≡ false) }
    ensures tries { OnOk result (¬ CanClose counted.old.core
        → tries_left counted.new.core < tries_left counted.old.core) }
    ensures same { OnOk result (CanClose counted.old.core → counted.new.core ≡ counted.old.core) }
{
    events_add_up::<FormFault>();
    events_use_up_tries::<FormFault>();
    counted.is_reached();
    if !start(counted, watcher)? {
        return Ok(());
    }
    counted.is_reached();
    rounds(alloc, counted, watcher)?;
    end(counted, watcher)
}

/// One run: it starts, unless one is on; then come rounds, until nothing moves in one; then it ends. Where no run is on
/// and nothing is dormant, nothing happens. Where memory runs out the events that were made stand.
pub fn run(alloc: Global, counted: &mut Counted) -> Result<(), AllocError>
    requires none_lent { counted.old.core.lent ≡ [] }
    ensures events { TicksOn resolved_forms (events_of_run counted.old.core) counted.old counted.new }
    ensures none_lent { OnOk result (counted.new.core.lent ≡ []) }
    ensures ended { OnOk result (counted.new.core.running ≡ false) }
    ensures tries { OnOk result (¬ CanClose counted.old.core
        → tries_left counted.new.core < tries_left counted.old.core) }
    ensures same { OnOk result (CanClose counted.old.core → counted.new.core ≡ counted.old.core) }
{
    run_watched(alloc, counted, &mut Silent)
}
