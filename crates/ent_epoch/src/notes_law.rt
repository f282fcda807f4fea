//! Laws of notes, and of the groups that tell of commits. Nothing here does anything; what holds is in the contracts.
ghost use Rattle.std.specs.Prelude.{◌≡◌, ◌∷◌, ◌++◌, ℕ, List, None, [], false, length, true};
ghost use Rattle.ent_form.specs.OpeningFault.{opening_fault};
ghost use Rattle.ent_form.specs.declared.fault.FormFault.{FormFault as Fault};
ghost use Rattle.ent_sched.specs.Passed.{resolved_forms};
ghost use Rattle.ent_protocol.specs.Event.{Event, Reply};
ghost use Rattle.ent_protocol.specs.Reached.{IsReached, settled};
ghost use Rattle.ent_protocol.specs.Run.{Forms};
ghost use Rattle.ent_protocol.specs.State.{State};
ghost use Rattle.ent_protocol.specs.Step.{Step};
ghost use Rattle.ent_protocol_laws.specs.Faithful.{AreFaithful};
ghost use Rattle.ent_protocol_laws.specs.Commits.{is_commit};
ghost use Rattle.ent_sched.specs.Watching.{Heard, HearsAll, PlaysThrough};
ghost use Rattle.ent_feed.specs.declared.group.Group.{Group};
ghost use Rattle.ent_feed.specs.Telling.{AreTold};
ghost use Rattle.ent_epoch.specs.Notes.{Hears, Notes, all_noted};
ghost use Rattle.ent_epoch.specs.Publishing.{AreGroupsOf, IsGroupOfRest};
ghost use Rattle.ent_epoch.specs.Telling.{CanTell, HaveTickets, HearsOn, KeepsUp, Telling, TellsRest, telling_at};

use ent_form::FormFault;
use ent_protocol::commits_are_numbered;
use ent_protocol_laws::{
    journals_grow_by_commits, only_commits_settle_tables, steps_go_on, transactions_stand_once,
};
use ent_sched::resolved_forms_are_faithful;
use ent_semantics::{closing_keeps_the_meaning, runs_go_on, statements_keep_to_their_uses};

/// Events lead from one state to another. Groups that are made of what was noted of them, over the journal of the last
/// state, tell of what happened, up to a state that has the settled tables and the journal of the last one.
pub fn groups_of_notes_tell()
    ensures { (forms : Forms Fault) (tickets : List ℕ) (first last : State) (told : List Heard) (groups : List Group)
        → AreFaithful forms first.opening
        → IsReached forms first
        → PlaysThrough forms first told last
        → AreGroupsOf tickets first.opening last.journal (settled first) (all_noted told) groups
        → (behind : State) × AreTold tickets first groups behind
        × (settled last ≡ settled behind) × (last.journal ≡ behind.journal) × (last.opening ≡ behind.opening) }
{
    journals_grow_by_commits::<FormFault>();
    only_commits_settle_tables::<FormFault>();
    steps_go_on::<FormFault>();
}

/// Notes that are whole at the end were whole all along, and are those of all that was told, in order.
pub fn notes_are_of_what_was_told()
    ensures onward { (told : List Heard) (old new : Notes)
        → HearsAll Hears old told new
        → new.is_whole ≡ true
        → (old.is_whole ≡ true) × (new.notes ≡ old.notes ++ all_noted told) }
    ensures from_nothing { (told : List Heard) (old new : Notes)
        → HearsAll Hears old told new
        → old.notes ≡ []
        → new.is_whole ≡ true
        → new.notes ≡ all_noted told }
{}

/// A telling up to a reached state keeps up with it, and goes on to do so: by an event that is no commit, which it
/// needn't hear of, and by events that it hears of, one after the other. What it hears changes no more than its notes.
pub fn tellings_keep_up()
    ensures begun { (s : State) → IsReached resolved_forms s → KeepsUp (telling_at s) s }
    ensures unheard { (telling : Telling) (s : State) (event : Event) (reply : Reply Fault) (new : State)
        → KeepsUp telling s
        → Step resolved_forms s event reply new
        → is_commit reply ≡ false
        → KeepsUp telling new }
    ensures heard { (old : Telling) (s : State) (told : List Heard) (new : Telling) (last : State)
        → KeepsUp old s
        → PlaysThrough resolved_forms s told last
        → HearsAll HearsOn old told new
        → KeepsUp new last }
    ensures notes { (old : Telling) (told : List Heard) (new : Telling)
        → HearsAll HearsOn old told new
        → new ≡ record old { notes = new.notes } }
{}

/// Where each script that was submitted to a reached state has a ticket, each entry of the journal is of one.
pub fn entries_have_tickets()
    ensures { (s : State) (tickets : List ℕ)
        → IsReached resolved_forms s
        → length tickets ≡ length s.submitted
        → HaveTickets tickets s.journal }
{
    commits_are_numbered::<FormFault>();
    transactions_stand_once::<FormFault>();
}

/// Where all entries of a core's journal are told, the tables that are told are its settled ones.
pub fn told_tables_are_settled()
    ensures { (telling : Telling) (core : State)
        → opening_fault core.opening ≡ None
        → KeepsUp telling core
        → telling.entries ≡ length core.journal
        → telling.tables ≡ settled core }
{
    journals_grow_by_commits::<FormFault>();
    only_commits_settle_tables::<FormFault>();
    resolved_forms_are_faithful();
    steps_go_on::<FormFault>();
}

/// A reached state has a settled table for each that is declared.
pub(crate) fn settled_tables_are_declared()
    ensures { (s : State)
        → opening_fault s.opening ≡ None
        → IsReached resolved_forms s
        → length (settled s) ≡ length s.opening.tables }
{
    statements_keep_to_their_uses();
    runs_go_on();
    closing_keeps_the_meaning();
    resolved_forms_are_faithful();
}

/// What a telling that keeps up with a core has to tell of it can be told.
pub(crate) fn what_is_told_stands()
    ensures { (telling : Telling) (core : State)
        → opening_fault core.opening ≡ None
        → KeepsUp telling core
        → CanTell telling core }
{
    settled_tables_are_declared();
    journals_grow_by_commits::<FormFault>();
    steps_go_on::<FormFault>();
}

/// Where a telling keeps up with a core, groups that are made of its whole notes tell the rest, and so does one group
/// that is made of the rest of the journal.
pub(crate) fn groups_tell_the_rest()
    ensures noted { (tickets : List ℕ) (telling : Telling) (core : State) (groups : List Group)
        → opening_fault core.opening ≡ None
        → KeepsUp telling core
        → HaveTickets tickets core.journal
        → telling.notes.is_whole ≡ true
        → AreGroupsOf tickets core.opening core.journal telling.tables telling.notes.notes groups
        → TellsRest tickets telling core groups }
    ensures in_one { (tickets : List ℕ) (telling : Telling) (core : State) (group : Group)
        → KeepsUp telling core
        → HaveTickets tickets core.journal
        → IsGroupOfRest tickets core.opening core.journal telling.entries telling.tables (settled core) group
        → TellsRest tickets telling core (group ∷ []) }
{
    groups_of_notes_tell();
    journals_grow_by_commits::<FormFault>();
    resolved_forms_are_faithful();
    steps_go_on::<FormFault>();
}
