//! One run of a core, whose scripts ask for one run each.
ghost use Rattle.std.specs.Prelude.{◌≡◌, ℕ, [], IfErr, IfOk, OnOk};
ghost use Rattle.ent_epoch.specs.OneRun.{AreForOneRun, EndsRun, MakesRun, StartsRun};
ghost use Rattle.ent_epoch.specs.Telling.{KeepsUp, Telling as TellingSeen};
ghost use Rattle.ent_sched.specs.Passed.{resolved_forms};
ghost use Rattle.ent_sched.specs.Onward.{LeadsOn};

use crate::law::batches_go_on;
use crate::{Telling, tellings_keep_up};
use ent_form::FormFault;
use ent_protocol_laws::{events_keep_the_input, events_lead_on, jobs_are_lent_by_replies};
use ent_sched::{Core, Counted, run_watched};
use std::alloc::{AllocError, AllocFailed, Global};

/// Takes all jobs back, and starts a run, unless one is on or nobody waits. Where memory runs out no run is started.
fn start(core: &mut Core) -> Result<(), AllocError>
    requires once { AreForOneRun core.old }
    ensures ok { OnOk result (StartsRun core.old core.new) }
    ensures kept { AreForOneRun core.new }
    ensures nobody { OnOk result (core.new.dormant ≡ []) }
    ensures none_lent { core.new.lent ≡ [] }
    ensures events { (count : ℕ) × LeadsOn resolved_forms count core.old core.new }
    ensures unheard { (telling : TellingSeen) → KeepsUp telling core.old → KeepsUp telling core.new }
{
    batches_go_on();
    tellings_keep_up();
    jobs_are_lent_by_replies::<FormFault>();
    events_keep_the_input::<FormFault>();
    drop(core.recall());
    drop(core.start_run()?);
    Ok(())
}

/// Makes a run that is on to its end; where none is on, and nobody waits, nothing happens. Where memory runs out the
/// core comes back with all that was done. Its commits are noted.
fn end(alloc: Global, core: Core, telling: &mut Telling) -> Result<Core, AllocFailed<Core>>
    requires once { AreForOneRun core }
    requires keeps_up { KeepsUp telling.old core }
    requires nobody { core.dormant ≡ [] }
    requires none_lent { core.lent ≡ [] }
    ensures ok { IfOk result (λ new. EndsRun core new) }
    ensures kept { IfOk result (λ new. AreForOneRun new) }
    ensures handed_back { IfErr result (λ refused. (count : ℕ) × LeadsOn resolved_forms count core refused.value) }
    ensures handed_back_kept { IfErr result (λ refused. AreForOneRun refused.value) }
    ensures keeps_up { IfOk result (λ new. KeepsUp telling.new new) }
    ensures handed_back_keeps_up { IfErr result (λ refused. KeepsUp telling.new refused.value) }
    ensures notes { telling.new ≡ record telling.old { notes = telling.new.notes } }
{
    batches_go_on();
    tellings_keep_up();
    core.is_reached();
    let mut counted = Counted::new(core);
    let ran = run_watched(alloc, &mut counted, telling);
    let (core, _) = counted.into_parts();
    match ran {
        Ok(()) => Ok(core),
        Err(_) => Err(AllocFailed { value: core }),
    }
}

/// Takes all jobs back, starts a run, unless one is on or nobody waits, and makes it to its end. Where memory runs out
/// the core comes back with all that was done, and the call may be made again. What is told of the core keeps up with
/// it: the commits are noted.
pub fn run_to_end(
    alloc: Global,
    mut core: Core,
    telling: &mut Telling,
) -> Result<Core, AllocFailed<Core>>
    requires once { AreForOneRun core }
    requires keeps_up { KeepsUp telling.old core }
    ensures ok { IfOk result (λ new. MakesRun core new) }
    ensures kept { IfOk result (λ new. AreForOneRun new) }
    ensures handed_back { IfErr result (λ refused. (count : ℕ) × LeadsOn resolved_forms count core refused.value) }
    ensures handed_back_kept { IfErr result (λ refused. AreForOneRun refused.value) }
    ensures opening { IfOk result (λ new. new.opening ≡ core.opening) }
    ensures submitted { IfOk result (λ new. new.submitted ≡ core.submitted) }
    ensures keeps_up { IfOk result (λ new. KeepsUp telling.new new) }
    ensures handed_back_keeps_up { IfErr result (λ refused. KeepsUp telling.new refused.value) }
    ensures notes { telling.new ≡ record telling.old { notes = telling.new.notes } }
{
    events_lead_on::<FormFault>();
    match start(&mut core) {
        Ok(()) => end(alloc, core, telling),
        Err(AllocError) => Err(AllocFailed { value: core }),
    }
}
