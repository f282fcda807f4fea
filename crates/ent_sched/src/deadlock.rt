//! A deadlock is broken.
ghost use Rattle.std.specs.Prelude.{◌≡◌, [], false, true};
ghost use Rattle.ent_protocol_laws.specs.Idle.{IsAnswered};
ghost use Rattle.ent_protocol.specs.Event.{BreakCycle, NoCycle};
ghost use Rattle.ent_core.specs.Passed.{resolved_forms};
ghost use Rattle.ent_sched.specs.Onward.{TicksOn};
ghost use Rattle.ent_sched.specs.Progress.{UsesUp};
ghost use Rattle.ent_sched.specs.Watching.{IsWatchedInRun};

use crate::counted::Counted;
use crate::law::events_add_up;
use crate::progress::told_of_progress;
use crate::watcher::Watcher;
use ent_form::FormFault;
use ent_protocol_laws::{jobs_are_lent_by_replies, progress_uses_up};

/// A deadlock is broken, where there is one. Whether there was one.
pub(crate) fn break_deadlock<W: Watcher>(counted: &mut Counted, watcher: &mut W) -> bool
    requires none_lent { counted.old.core.lent ≡ [] }
    ensures events { TicksOn resolved_forms 1 counted.old counted.new }
    ensures watched { IsWatchedInRun resolved_forms W.hears counted.old counted.new watcher.old watcher.new }
    ensures none_lent { counted.new.core.lent ≡ [] }
    ensures progress { result ≡ true → UsesUp counted.old.core counted.new.core }
    ensures idle { result ≡ false
        → (counted.new.core ≡ counted.old.core) × IsAnswered resolved_forms counted.old.core BreakCycle NoCycle }
{
    events_add_up::<FormFault>();
    jobs_are_lent_by_replies::<FormFault>();
    progress_uses_up::<FormFault>();
    counted.is_reached();
    let reply = counted.break_cycle(watcher);
    told_of_progress(reply)
}
