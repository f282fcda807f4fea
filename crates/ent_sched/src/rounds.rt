//! The rounds of a run.
ghost use Rattle.std.specs.Prelude.{◌≡◌, [], OnOk};
ghost use Rattle.ent_protocol_laws.specs.Idle.{IsIdleRound};
ghost use Rattle.ent_core.specs.Passed.{resolved_forms};
ghost use Rattle.ent_sched.specs.Onward.{TicksOn};
ghost use Rattle.ent_sched.specs.Bounds.{events_of_rounds};
ghost use Rattle.ent_sched.specs.Watching.{IsWatchedInRun};

use crate::counted::Counted;
use crate::law::events_add_up;
use crate::one_round::round_watched;
use crate::watcher::Watcher;
use ent_form::FormFault;
use ent_protocol_laws::runs_are_within;
use std::alloc::{AllocError, Global};
use std::marker::Brand;
use std::sync::ledger::{Blank, Ledger};

/// Rounds, until nothing moves in one. A ledger, which takes no bytes, counts those that made progress: of these there
/// are no more than steps of progress at the start.
fn counted_rounds<L: Ledger, W: Watcher>(
    alloc: Global,
    counted: &mut Counted,
    watcher: &mut W,
    ledger: Blank,
) -> Result<(), AllocError>
    requires name { ledger.name ≡ L.name }
    requires parts { ledger.parts ≡ L.parts }
    requires whole { ledger.parts ≡ 1 }
    requires none_lent { counted.old.core.lent ≡ [] }
    ensures events { TicksOn resolved_forms (events_of_rounds counted.old.core) counted.old counted.new }
    ensures watched { IsWatchedInRun resolved_forms W.hears counted.old counted.new watcher.old watcher.new }
    ensures idle { OnOk result (IsIdleRound resolved_forms counted.new.core) }
{
    runs_are_within();
    events_add_up::<FormFault>();
    counted.is_reached();
    let (mut progress, mut share) = ledger.open::<L>();
    'rounds: while round_watched(alloc, counted, watcher)? {
        progress.add(&mut share, 1);
    }
    Ok(())
}

/// Rounds, until nothing moves in one. Where memory runs out the events that were made stand.
pub(crate) fn rounds<W: Watcher>(
    alloc: Global,
    counted: &mut Counted,
    watcher: &mut W,
) -> Result<(), AllocError>
    requires none_lent { counted.old.core.lent ≡ [] }
    ensures events { TicksOn resolved_forms (events_of_rounds counted.old.core) counted.old counted.new }
    ensures watched { IsWatchedInRun resolved_forms W.hears counted.old counted.new watcher.old watcher.new }
    ensures idle { OnOk result (IsIdleRound resolved_forms counted.new.core) }
{
    counted_rounds::<Brand, W>(alloc, counted, watcher, Blank::new(1))
}
