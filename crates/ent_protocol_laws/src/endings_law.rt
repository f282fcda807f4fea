//! Laws of schedules. Nothing here does anything; what holds is in the contracts.
ghost use Rattle.std.specs.Prelude.{◌≡◌, ◌<◌, ◌≤◌, ◌+◌, ◌↔◌, AllPairs, Contains, List, ℕ, [], false, length, true};
ghost use Rattle.std.specs.Prelude.{Some};
ghost use Rattle.std.specs.List.{AllByRecursion};
ghost use Rattle.ent_tree.specs.declared.declaration.Opening.{Opening};
ghost use Rattle.ent_tree.specs.declared.script.Script.{Script};
ghost use Rattle.ent_group.specs.declared.members.TheConstants.{MOST_MEMBERS};
ghost use Rattle.ent_semantics.specs.Database.{Database};
ghost use Rattle.ent_semantics.specs.declared.book.Book.{Book};
ghost use Rattle.ent_protocol.specs.Event.{Event, Reply};
ghost use Rattle.ent_protocol.specs.Event.{Begin, EndRun, Ended, Finish, JoinAnswer, Pick, Recall};
ghost use Rattle.ent_protocol.specs.Finish.{IsOutstandingSingle};
ghost use Rattle.ent_protocol.specs.Job.{Done};
ghost use Rattle.ent_protocol.specs.Lookup.{Ready, Turn, running_members, standing};
ghost use Rattle.ent_protocol.specs.PoolEvents.{IsOutstandingJoint};
ghost use Rattle.ent_protocol.specs.Quiet.{IsQuiet};
ghost use Rattle.ent_protocol.specs.Reached.{IsFinished, IsFinishedBook, IsReached, LeadsTo, book_of, scripts_of};
ghost use Rattle.ent_protocol.specs.Run.{Forms, ending};
ghost use Rattle.ent_protocol.specs.State.{State, members};
ghost use Rattle.ent_protocol.specs.Step.{Step};
ghost use Rattle.ent_protocol.specs.Tidy.{is_member};
ghost use Rattle.ent_protocol_laws.specs.Attempts.{AsksForRun};
ghost use Rattle.ent_protocol_laws.specs.Replies.{adds_script, lent_by};
ghost use Rattle.ent_protocol_laws.specs.Fates.{HasOneFate, HaveFates};
ghost use Rattle.ent_protocol_laws.specs.Idle.{IsIdleRound, IsTurnTaken};
ghost use Rattle.ent_protocol_laws.specs.Lending.{IsJointTaken, IsLentAlone, IsSingleTaken};
ghost use Rattle.ent_protocol_laws.specs.Tries.{tries_left};

use crate::{attempts_stay_within, members_stand_by_number, steps_go_on, transactions_stand_once};
use ent_protocol::reached_states_are_tidy;

/// Events one after the other lead on: behind some come others, and what a reached state leads to is reached.
pub fn events_lead_on<F>()
    ensures joined { (forms : Forms F) (n m : ℕ) (first middle last : State)
        → LeadsTo forms n first middle
        → LeadsTo forms m middle last
        → LeadsTo forms (n + m) first last }
    ensures reached { (forms : Forms F) (n : ℕ) (first last : State)
        → IsReached forms first
        → LeadsTo forms n first last
        → IsReached forms last }
{
    steps_go_on::<F>();
}

/// An event that adds no script keeps the opening and the scripts.
pub fn events_keep_the_input<F>()
    ensures opening { (forms : Forms F) (s : State) (event : Event) (reply : Reply F) (new : State)
        → Step forms s event reply new
        → new.opening ≡ s.opening }
    ensures submitted { (forms : Forms F) (s : State) (event : Event) (reply : Reply F) (new : State)
        → Step forms s event reply new
        → adds_script event reply ≡ false
        → new.submitted ≡ s.submitted }
    ensures scripts { (forms : Forms F) (s : State) (event : Event) (reply : Reply F) (new : State)
        → Step forms s event reply new
        → adds_script event reply ≡ false
        → scripts_of new ≡ scripts_of s }
{
    steps_go_on::<F>();
}

/// In a reached state the members come by number, each once, and there are 64 at most.
pub fn members_come_by_number<F>()
    ensures by_number { (forms : Forms F) (s : State)
        → IsReached forms s
        → AllPairs (λ (one other : ℕ). one < other) (running_members s) }
    ensures bound { (forms : Forms F) (s : State) → IsReached forms s → length (running_members s) ≤ MOST_MEMBERS }
    ensures counted { (s : State) → length (running_members s) ≡ length (members s) }
    ensures exact { (s : State) (tx : ℕ) → Contains (running_members s) tx ↔ (is_member s tx ≡ true) }
{
    transactions_stand_once::<F>();
    members_stand_by_number::<F>();
}

/// The begin of a member that is ready is never refused because it isn't there or can't begin now: the member moves, or
/// is blocked or held back.
pub fn ready_members_are_answered<F>()
    ensures { (forms : Forms F) (s : State) (tx : ℕ) (turn : Turn) (reply : Reply F) (new : State)
        → standing s tx ≡ Some (Ready turn)
        → Step forms s (Begin tx) reply new
        → IsTurnTaken reply }
{}

/// Where no job is lent, an event leaves lent exactly the job that its reply lends; and recalling leaves none.
pub fn jobs_are_lent_by_replies<F>()
    ensures lent { (forms : Forms F) (s : State) (event : Event) (reply : Reply F) (new : State)
        → s.lent ≡ []
        → Step forms s event reply new
        → new.lent ≡ lent_by reply }
    ensures recalled { (forms : Forms F) (s : State) (reply : Reply F) (new : State)
        → Step forms s Recall reply new
        → new.lent ≡ [] }
{}

/// A result that comes in at once, its job being the only one that is lent, is outstanding and taken, and no job is
/// lent behind it.
pub fn results_are_taken_at_once<F>()
    ensures single { (forms : Forms F) (s : State) (tx : ℕ) (done : Done) (lent : State)
        → IsLentAlone forms s (Begin tx) done lent
        → IsOutstandingSingle lent done }
    ensures single_taken { (forms : Forms F) (s : State) (tx : ℕ) (done : Done) (lent : State) (reply : Reply F)
        (new : State)
        → IsLentAlone forms s (Begin tx) done lent
        → Step forms lent (Finish done) reply new
        → IsSingleTaken reply }
    ensures single_returned { (forms : Forms F) (s : State) (tx : ℕ) (done : Done) (lent : State) (reply : Reply F)
        (new : State)
        → IsLentAlone forms s (Begin tx) done lent
        → Step forms lent (Finish done) reply new
        → new.lent ≡ [] }
    ensures joint { (forms : Forms F) (s : State) (done : Done) (lent : State)
        → IsLentAlone forms s Pick done lent
        → IsOutstandingJoint lent done }
    ensures joint_taken { (forms : Forms F) (s : State) (done : Done) (lent : State) (reply : Reply F) (new : State)
        → IsLentAlone forms s Pick done lent
        → Step forms lent (JoinAnswer done) reply new
        → IsJointTaken reply }
    ensures joint_returned { (forms : Forms F) (s : State) (done : Done) (lent : State) (reply : Reply F) (new : State)
        → IsLentAlone forms s Pick done lent
        → Step forms lent (JoinAnswer done) reply new
        → new.lent ≡ [] }
{}

/// A round of a reached state in which nothing moves leaves the run quiet, and a quiet run ends.
pub fn idle_rounds_are_quiet<F>()
    ensures quiet { (forms : Forms F) (s : State) → IsReached forms s → IsIdleRound forms s → IsQuiet s }
    ensures ends { (forms : Forms F) (s : State) (reply : Reply F) (new : State)
        → IsQuiet s
        → s.running ≡ true
        → Step forms s EndRun reply new
        → (reply ≡ Ended (running_members s)) × (new ≡ ending s) }
{
    transactions_stand_once::<F>();
    members_stand_by_number::<F>();
}

/// The tries that are left never grow but by a script more, where each script asks for one run at least; and the end of
/// a run uses one up.
pub fn ended_runs_use_up_tries<F>()
    ensures bound { (forms : Forms F) (s : State) (event : Event) (reply : Reply F) (new : State)
        → IsReached forms s
        → AllByRecursion AsksForRun s.submitted
        → Step forms s event reply new
        → adds_script event reply ≡ false
        → tries_left new ≤ tries_left s }
    ensures ended { (forms : Forms F) (s : State) (members : List ℕ) (new : State)
        → Step forms s EndRun (Ended members) new
        → tries_left new < tries_left s }
{
    attempts_stay_within::<F>();
    members_stand_by_number::<F>();
}

/// Where no run is on and nothing is dormant, each script has exactly one fate; so has each script of a finished book,
/// where they come by number.
pub fn finished_scripts_have_fates<F>()
    ensures state { (forms : Forms F) (s : State) (tx : ℕ)
        → IsFinished forms s
        → 1 ≤ tx
        → tx ≤ length s.submitted
        → HasOneFate s.fates tx }
    ensures book { (forms : Forms F) (s : State) → IsFinished forms s → HaveFates (book_of s) }
    ensures finished { (forms : Forms F) (opening : Opening) (scripts : List Script) (book : Book Database)
        → IsFinishedBook forms opening scripts book
        → HaveFates book }
{
    transactions_stand_once::<F>();
    reached_states_are_tidy::<F>();
}
