//! Laws of scripts that ask for one run, and of the groups that tell of an epoch. Nothing here has a body but calls of
//! laws; what holds is in the contracts.
ghost use Rattle.std.specs.Prelude.{◌≡◌, ◌++◌, ◌+◌, ◌<◌, List, ℕ, [], false, length};
ghost use Rattle.std.specs.List.{AllByRecursion};
ghost use Rattle.ent_form.specs.declared.fault.FormFault.{FormFault as Fault};
ghost use Rattle.ent_sched.specs.Passed.{resolved_forms};
ghost use Rattle.ent_protocol.specs.Event.{Event, Recall, Reply, StartRun};
ghost use Rattle.ent_protocol.specs.Reached.{CanClose, IsReached};
ghost use Rattle.ent_protocol.specs.State.{State};
ghost use Rattle.ent_protocol.specs.Step.{Step};
ghost use Rattle.ent_protocol_laws.specs.Attempts.{AskForMost, AsksForRun};
ghost use Rattle.ent_sched.specs.Onward.{LeadsOn};
ghost use Rattle.ent_protocol_laws.specs.Tries.{present_run, tries_left};
ghost use Rattle.ent_epoch.specs.Epoch.{Epoch, Publishes, Takes, begun};
ghost use Rattle.ent_epoch.specs.OneRun.{AreForOneRun, MakesRun};
ghost use Rattle.ent_epoch.specs.Told.{AreToldOf, GoesOnUntold};
ghost use Rattle.ent_feed.specs.Feed.{Feed};
ghost use Rattle.ent_feed.specs.declared.group.Group.{Group};
ghost use Rattle.ent_semantics.specs.declared.book.Entry.{Entry};
ghost use Rattle.ent_tree.specs.declared.declaration.Opening.{Opening};
ghost use Rattle.ent_tree.specs.declared.script.Script.{Script};
ghost use Rattle.ent_waiting.specs.declared.waiter.Submission.{Submission};

use ent_feed::{groups_give_the_journal, groups_give_the_settled_tables};
use ent_form::FormFault;
use ent_protocol_laws::{
    attempts_stay_within, events_lead_on, journals_grow_by_commits, steps_go_on,
};
use ent_sched::events_use_up_tries;

/// Where each script asks for one run, only those have a try left who wait for a run, one each; and the present run is
/// one.
pub(crate) fn tries_are_of_those_who_wait()
    ensures { (s : State)
        → IsReached resolved_forms s
        → AllByRecursion AsksForRun s.submitted
        → AskForMost 1 s
        → tries_left s ≡ length s.dormant + present_run s.running }
{
    attempts_stay_within::<FormFault>();
}

/// A run that starts takes all in who wait, and jobs that are taken back change nothing of that. Events without a new
/// script keep that nobody waits for another run.
pub(crate) fn batches_go_on()
    ensures recalled { (s : State) (reply : Reply Fault) (new : State)
        → Step resolved_forms s Recall reply new
        → AreForOneRun s
        → AreForOneRun new }
    ensures started { (s : State) (reply : Reply Fault) (new : State)
        → Step resolved_forms s StartRun reply new
        → AreForOneRun s
        → AreForOneRun new }
    ensures begun { (s : State) (reply : Reply Fault) (new : State)
        → Step resolved_forms s StartRun reply new
        → AreForOneRun s
        → new.dormant ≡ [] }
    ensures led_on { (s : State) (count : ℕ) (new : State)
        → IsReached resolved_forms s
        → AllByRecursion AsksForRun s.submitted
        → AreForOneRun s
        → s.dormant ≡ []
        → LeadsOn resolved_forms count s new
        → AreForOneRun new }
    ensures ended { (s : State) (count : ℕ) (new : State)
        → IsReached resolved_forms s
        → AllByRecursion AsksForRun s.submitted
        → AreForOneRun s
        → s.dormant ≡ []
        → LeadsOn resolved_forms count s new
        → new.running ≡ false
        → (¬ CanClose s → tries_left new < tries_left s)
        → (CanClose s → new ≡ s)
        → CanClose new }
{
    events_lead_on::<FormFault>();
    tries_are_of_those_who_wait();
    events_use_up_tries::<FormFault>();
}

/// Events put entries behind those of a journal.
pub(crate) fn journals_go_on()
    ensures led { (s : State) (count : ℕ) (new : State)
        → LeadsOn resolved_forms count s new
        → (added : List Entry) × (new.journal ≡ s.journal ++ added) }
    ensures made { (s new : State) → MakesRun s new → (added : List Entry) × (new.journal ≡ s.journal ++ added) }
    ensures one { (s : State) (event : Event) (reply : Reply Fault) (new : State)
        → Step resolved_forms s event reply new
        → (added : List Entry) × (new.journal ≡ s.journal ++ added) }
{
    journals_grow_by_commits::<FormFault>();
}

/// Whatever an epoch does, the groups that it published since it began tell exactly what of it is told: none as it
/// begins, the same ones while it goes on, as by a script that is submitted, and those that it publishes behind them.
pub fn groups_tell_of_epochs()
    ensures begun { (number : ℕ) (opening : Opening) → AreToldOf opening (begun number opening) [] }
    ensures submitted { (old : Epoch) (ticket : ℕ) (script : Script) (submission : Submission) (new : Epoch)
        → Takes old ticket script submission new
        → GoesOnUntold old new }
    ensures goes_on { (opening : Opening) (old new : Epoch) (groups : List Group)
        → AreToldOf opening old groups
        → GoesOnUntold old new
        → AreToldOf opening new groups }
    ensures published { (opening : Opening) (old new : Epoch) (before after : Feed) (groups : List Group)
        → AreToldOf opening old groups
        → (publishes : Publishes old before after new)
        → AreToldOf opening new (groups ++ publishes.groups) }
{
    journals_go_on();
    steps_go_on::<FormFault>();
    groups_give_the_journal();
    groups_give_the_settled_tables();
}
