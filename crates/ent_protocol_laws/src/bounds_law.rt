//! Laws of progress. What holds is in the contracts; the bodies only call laws of lower crates.
ghost use Rattle.std.specs.Prelude.{◌≡◌, ◌≤◌, ℕ, ◌+◌, ◌*◌, List, true, false, count_by, length};
ghost use Rattle.std.specs.List.{AllByRecursion};
ghost use Rattle.ent_protocol.specs.Event.{Event, Reply};
ghost use Rattle.ent_protocol.specs.Play.{Plays};
ghost use Rattle.ent_protocol.specs.Reached.{IsReached};
ghost use Rattle.ent_protocol.specs.Run.{Forms};
ghost use Rattle.ent_protocol.specs.State.{State, members};
ghost use Rattle.ent_protocol.specs.Step.{Step};
ghost use Rattle.ent_protocol_laws.specs.Progress.{brings_work, is_progress};
ghost use Rattle.ent_protocol_laws.specs.Within.{IsBelow, IsWithin, statements_in_run};

use crate::{lent_jobs_stand_once, members_stand_by_number, steps_go_on};
use ent_semantics::components_are_classes;

/// A run of n members, whose scripts have so many statements in all, their ends counted, is within twice these
/// statements, n and the square of n: at its start, and at every moment after it.
pub fn runs_are_within()
    ensures { (s : State)
        → let n = length (members s) in
        IsWithin n (2 * statements_in_run s + n + n * n) s }
{}

/// From a state that is reached, every step keeps within what was left, but one that brings work: a script that comes
/// in, or a run that starts.
pub fn steps_stay_within<F>()
    ensures { (forms : Forms F) (s : State) (event : Event) (reply : Reply F) (new : State) (most left : ℕ)
        → IsReached forms s
        → Step forms s event reply new
        → brings_work reply ≡ false
        → IsWithin most left s
        → IsWithin most left new }
{
    components_are_classes();
    members_stand_by_number::<F>();
    lent_jobs_stand_once::<F>();
    steps_go_on::<F>();
}

/// From a state that is reached, every step whose reply tells of progress uses up one of the steps that were left at
/// least. So where none is left, no such step is made.
pub fn progress_uses_up<F>()
    ensures { (forms : Forms F) (s : State) (event : Event) (reply : Reply F) (new : State) (most left : ℕ)
        → IsReached forms s
        → Step forms s event reply new
        → is_progress reply ≡ true
        → IsWithin most left s
        → IsBelow most left new }
{
    components_are_classes();
    members_stand_by_number::<F>();
    lent_jobs_stand_once::<F>();
    steps_go_on::<F>();
}

/// However a run goes on from a state that is reached, with no script that comes in and no other run that starts, at
/// most so many replies tell of progress: twice the statements of its members' scripts, their ends counted, the number
/// of its members, and the square of that number.
pub fn progress_is_bounded<F>()
    ensures { (forms : Forms F) (s : State) (steps : List (Event × Reply F)) (last : State)
        → IsReached forms s
        → Plays forms s steps last
        → AllByRecursion (λ (step : Event × Reply F). brings_work step.1 ≡ false) steps
        → let n = length (members s) in
        count_by (λ (step : Event × Reply F). is_progress step.1) steps ≤ 2 * statements_in_run s + n + n * n }
{
    runs_are_within();
    steps_stay_within::<F>();
    progress_uses_up::<F>();
    steps_go_on::<F>();
}
