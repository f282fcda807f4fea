//! Laws of events. Nothing here does anything; what holds is in the contracts.
ghost use Rattle.std.specs.Prelude.{◌≡◌, ◌≢◌, ◌⊎◌, ◌<◌, ◌↔◌, ℕ, Contains, List, None, Some, false, length};
ghost use Rattle.ent_semantics.specs.Serial.{numbered};
ghost use Rattle.ent_semantics.specs.declared.book.Fate.{Fate};
ghost use Rattle.ent_protocol.specs.Event.{EndRun, Ended, Event, Reply};
ghost use Rattle.ent_protocol.specs.Reached.{IsReached, settled};
ghost use Rattle.ent_protocol.specs.Rollback.{Cause, own_fate, rolled_back};
ghost use Rattle.ent_protocol.specs.Run.{Forms};
ghost use Rattle.ent_protocol.specs.State.{Change, Member, State, Submitted, members};
ghost use Rattle.ent_protocol.specs.Step.{Step};
ghost use Rattle.ent_protocol.specs.Tidy.{is_member};
ghost use Rattle.ent_protocol_laws.specs.Alike.{AreAlike};
ghost use Rattle.ent_protocol_laws.specs.Last.{HasGivenUp, WaitsAgain};
ghost use Rattle.ent_protocol_laws.specs.Restored.{HasNotChanged, IsFirstChange, IsNoted, rolls_back, rows_at};
ghost use Rattle.ent_protocol_laws.specs.Settled.{tables_before_changes};
ghost use Rattle.ent_protocol_laws.specs.Whole.{CommitsWhole};

use crate::standing_law::{
    lent_jobs_stand_once, members_stand_by_number, steps_go_on, transactions_stand_once,
};
use ent_protocol::reached_states_are_tidy;
use ent_semantics::components_are_classes;

/// An event of a reached state leads to one state. It has one reply, save that of several deadlocks that begin with the
/// same transaction any may be shown.
pub fn events_are_determined<F>()
    ensures state { (forms : Forms F) (s : State) (event : Event) (reply other : Reply F) (new another : State)
        → IsReached forms s
        → Step forms s event reply new
        → Step forms s event other another
        → new ≡ another }
    ensures reply { (forms : Forms F) (s : State) (event : Event) (reply other : Reply F) (new another : State)
        → IsReached forms s
        → Step forms s event reply new
        → Step forms s event other another
        → AreAlike reply other }
{
    components_are_classes();
    lent_jobs_stand_once::<F>();
    members_stand_by_number::<F>();
}

/// A rollback leaves each table that the group changed as it was noted at the first change, and the others as they
/// stand. What is noted is how the table stood: an event that rolls nobody back leaves a table as it is, or notes it.
pub fn rollbacks_restore_tables<F>()
    ensures restored { (s : State) (group table : ℕ) (cause : Cause) (change : Change)
        → table < length s.tables
        → IsFirstChange s group table change
        → rows_at (rolled_back group cause s) table ≡ change.before }
    ensures same { (s : State) (group table : ℕ) (cause : Cause)
        → HasNotChanged s group table
        → rows_at (rolled_back group cause s) table ≡ rows_at s table }
    ensures noted { (forms : Forms F) (s : State) (event : Event) (reply : Reply F) (new : State) (table : ℕ)
        → Step forms s event reply new
        → rolls_back reply ≡ false
        → IsNoted s new table }
{}

/// In every state that is reached the settled database has each table as it stood before the first change of it by a
/// member without a fate, and as it stands where there was no such change.
pub fn settled_tables_precede_changes<F>()
    ensures { (forms : Forms F) (s : State) → IsReached forms s → settled s ≡ tables_before_changes s }
{
    reached_states_are_tidy::<F>();
    transactions_stand_once::<F>();
}

/// An event keeps the journal, or a group commits: a member prepares, all others of its group being prepared, and the
/// journal goes on with the entries of them all, in the order in which they prepared.
pub fn journals_grow_by_groups<F>()
    ensures { (forms : Forms F) (s : State) (event : Event) (reply : Reply F) (new : State)
        → Step forms s event reply new
        → (new.journal ≡ s.journal) ⊎ CommitsWhole s new }
{}

/// Where a reached run ends, a member that is left has given up exactly where it took part in all the runs that its
/// script asks for; else it waits for another run.
pub fn ended_members_give_up_at_last<F>()
    ensures gives_up { (forms : Forms F) (s : State) (run : List ℕ) (new : State) (member : Member) (own : Submitted)
        → IsReached forms s
        → Step forms s EndRun (Ended run) new
        → Contains (members s) member
        → numbered s.submitted member.tx ≡ Some own
        → HasGivenUp new member ↔ (member.attempt ≡ own.script.within) }
    ensures waits { (forms : Forms F) (s : State) (run : List ℕ) (new : State) (member : Member) (own : Submitted)
        → IsReached forms s
        → Step forms s EndRun (Ended run) new
        → Contains (members s) member
        → numbered s.submitted member.tx ≡ Some own
        → WaitsAgain new member ↔ (member.attempt ≢ own.script.within) }
{
    transactions_stand_once::<F>();
    steps_go_on::<F>();
}

/// Where a group is rolled back, the member that asked for it, or failed, has that fate. Another one has given up where
/// it took part in all the runs that its script asks for, and else waits for another run.
pub fn rolled_back_members_give_up_at_last()
    ensures own { (s : State) (group : ℕ) (cause : Cause) (member : Member) (fate : Fate)
        → Contains (members s) member
        → member.group ≡ group
        → own_fate cause member ≡ Some fate
        → Contains (rolled_back group cause s).fates (record { tx = member.tx; fate = fate }) }
    ensures gives_up { (s : State) (group : ℕ) (cause : Cause) (member : Member) (own : Submitted)
        → Contains (members s) member
        → member.group ≡ group
        → own_fate cause member ≡ None
        → numbered s.submitted member.tx ≡ Some own
        → member.attempt ≡ own.script.within
        → HasGivenUp (rolled_back group cause s) member }
    ensures waits { (s : State) (group : ℕ) (cause : Cause) (member : Member) (own : Submitted)
        → Contains (members s) member
        → member.group ≡ group
        → own_fate cause member ≡ None
        → numbered s.submitted member.tx ≡ Some own
        → member.attempt ≢ own.script.within
        → WaitsAgain (rolled_back group cause s) member }
{}

/// The members of a group leave the run in one event: whoever leaves, by a commit or a rollback, leaves with all of its
/// group.
pub fn groups_leave_together<F>()
    ensures { (forms : Forms F) (s : State) (event : Event) (reply : Reply F) (new : State) (one other : Member)
        → IsReached forms s
        → Step forms s event reply new
        → Contains (members s) one
        → Contains (members s) other
        → one.group ≡ other.group
        → is_member new one.tx ≡ false
        → is_member new other.tx ≡ false }
{
    members_stand_by_number::<F>();
    reached_states_are_tidy::<F>();
}
