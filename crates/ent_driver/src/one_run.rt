//! One run of a core that is handed in.
ghost use Rattle.std.specs.Prelude.{IfErr, IfOk, ℕ};
ghost use Rattle.ent_driver.specs.OneRun.{RunsOnce};
ghost use Rattle.ent_sched.specs.Passed.{resolved_forms};
ghost use Rattle.ent_sched.specs.Onward.{LeadsOn};

use ent_form::FormFault;
use ent_sched::{Core, Counted, events_add_up, run};
use std::alloc::{AllocFailed, Global};

/// Takes all jobs back, and makes one run: it starts, unless one is on; rounds follow until nothing moves in one; and
/// it ends. Where nothing is left to be done no run is made. Where memory runs out the core comes back with all that
/// was done, and may be run again.
pub(crate) fn run_once(alloc: Global, core: Core) -> Result<Core, AllocFailed<Core>>
    ensures ok { IfOk result (λ new. RunsOnce core new) }
    ensures handed_back { IfErr result (λ refused. (count : ℕ) × LeadsOn resolved_forms count core refused.value) }
{
    events_add_up::<FormFault>();
    let mut counted = Counted::new(core);
    drop(counted.recall());
    let ran = run(alloc, &mut counted);
    let (core, _) = counted.into_parts();
    match ran {
        Ok(()) => Ok(core),
        Err(_) => Err(AllocFailed { value: core }),
    }
}
