//! Laws of schedules. Nothing here does anything; what holds is in the contracts.
ghost use Rattle.std.specs.Prelude.{◌≡◌, ◌≤◌, ◌<◌, ℕ, ◌+◌, ◌^◌, false};
ghost use Rattle.std.specs.List.{AllByRecursion};
ghost use Rattle.ent_protocol_laws.specs.Replies.{adds_script};
ghost use Rattle.ent_protocol.specs.Event.{Event, Reply};
ghost use Rattle.ent_protocol.specs.Reached.{IsReached};
ghost use Rattle.ent_protocol.specs.Run.{Forms};
ghost use Rattle.ent_protocol.specs.State.{State};
ghost use Rattle.ent_sched.specs.Onward.{LeadsOn, TicksOn};
ghost use Rattle.ent_sched.specs.Tally.{MakesEvent, Tally};
ghost use Rattle.ent_sched.specs.Tries.{UsesTries};
ghost use Rattle.ent_protocol_laws.specs.Attempts.{AsksForRun};

use ent_protocol_laws::{
    ended_runs_use_up_tries, events_keep_the_input, events_lead_on, steps_go_on,
};

/// How events and their ticks add up: no event leaves all as it was, an event that adds no script counts one, sequences
/// add, and a bound may be raised.
pub fn events_add_up<F>()
    ensures none { (forms : Forms F) (tally : Tally) → tally.ticks < 2 ^ 64 → TicksOn forms 0 tally tally }
    ensures one { (forms : Forms F) (event : Event) (reply : Reply F) (old new : Tally)
        → MakesEvent forms event reply old new
        → adds_script event reply ≡ false
        → TicksOn forms 1 old new }
    ensures joined { (forms : Forms F) (n m : ℕ) (first middle last : Tally)
        → TicksOn forms n first middle
        → TicksOn forms m middle last
        → TicksOn forms (n + m) first last }
    ensures widened { (forms : Forms F) (n m : ℕ) (first last : Tally)
        → n ≤ m
        → TicksOn forms n first last
        → TicksOn forms m first last }
{
    events_lead_on::<F>();
    events_keep_the_input::<F>();
}

/// Events that add no script add no try, where each script asks for one run at least; and events between which a run
/// that was on is over use one up.
pub fn events_use_up_tries<F>()
    ensures { (forms : Forms F) (count : ℕ) (s new : State)
        → IsReached forms s
        → AllByRecursion AsksForRun s.submitted
        → LeadsOn forms count s new
        → UsesTries s new }
{
    ended_runs_use_up_tries::<F>();
    events_keep_the_input::<F>();
    events_lead_on::<F>();
    steps_go_on::<F>();
}
