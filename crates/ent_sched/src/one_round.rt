//! One round of a run.
ghost use Rattle.std.specs.Prelude.{◌≡◌, ℕ, [], false, true, IfOk, OnOk};
ghost use Rattle.ent_protocol_laws.specs.Within.{IsBelow, IsWithin};
ghost use Rattle.ent_protocol_laws.specs.Idle.{IsIdleRound};
ghost use Rattle.ent_core.specs.Passed.{resolved_forms};
ghost use Rattle.ent_sched.specs.Onward.{TicksOn, events_of_round};
ghost use Rattle.ent_sched.specs.Watching.{IsWatchedInRun};

use crate::counted::Counted;
use crate::deadlock::break_deadlock;
use crate::joint::answer_component;
use crate::law::events_add_up;
use crate::turn::take_turns;
use crate::watcher::{Silent, Watcher};
use ent_form::FormFault;
use ent_protocol_laws::members_come_by_number;
use std::alloc::{AllocError, Global};

/// One round: each member that is ready at its turn, by number, begins its next statement, and a job that is lent is
/// evaluated and its result taken at once; then a component is picked, evaluated and answered; then a deadlock is
/// broken. It answers whether anything moved. Where memory runs out the events that were made stand, and a job may be
/// lent still. A watcher is told.
pub(crate) fn round_watched<W: Watcher>(
    alloc: Global,
    counted: &mut Counted,
    watcher: &mut W,
) -> Result<bool, AllocError>
    requires none_lent { counted.old.core.lent ≡ [] }
    ensures events { TicksOn resolved_forms (events_of_round counted.old.core) counted.old counted.new }
    ensures watched { IsWatchedInRun resolved_forms W.hears counted.old counted.new watcher.old watcher.new }
    ensures none_lent { OnOk result (counted.new.core.lent ≡ []) }
    ensures progress { IfOk result (λ moved. moved ≡ true
        → (most left : ℕ)
        → IsWithin most left counted.old.core
        → IsBelow most left counted.new.core) }
    ensures idle { IfOk result (λ moved. moved ≡ false
        → (counted.new.core ≡ counted.old.core) × IsIdleRound resolved_forms counted.old.core) }
{
    events_add_up::<FormFault>();
    members_come_by_number::<FormFault>();
    let turned = take_turns(alloc, counted, watcher)?;
    let answered = answer_component(alloc, counted, watcher)?;
    let broken = break_deadlock(counted, watcher);
    Ok(turned || answered || broken)
}

/// One round: each member that is ready at its turn, by number, begins its next statement, and a job that is lent is
/// evaluated and its result taken at once; then a component is picked, evaluated and answered; then a deadlock is
/// broken. It answers whether anything moved. Where memory runs out the events that were made stand, and a job may be
/// lent still.
pub fn round(alloc: Global, counted: &mut Counted) -> Result<bool, AllocError>
    requires none_lent { counted.old.core.lent ≡ [] }
    ensures events { TicksOn resolved_forms (events_of_round counted.old.core) counted.old counted.new }
    ensures none_lent { OnOk result (counted.new.core.lent ≡ []) }
    ensures progress { IfOk result (λ moved. moved ≡ true
        → (most left : ℕ)
        → IsWithin most left counted.old.core
        → IsBelow most left counted.new.core) }
    ensures idle { IfOk result (λ moved. moved ≡ false
        → (counted.new.core ≡ counted.old.core) × IsIdleRound resolved_forms counted.old.core) }
{
    round_watched(alloc, counted, &mut Silent)
}
