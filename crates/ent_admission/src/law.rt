//! The laws of acts, and of what is told of them. Nothing here does anything; what holds is in the contracts.
ghost use Rattle.std.specs.Prelude.{◌≡◌, ℕ, None};
ghost use Rattle.ent_admission.specs.Admission.{Admission, IsAllTold};
ghost use Rattle.ent_admission.specs.Acts.{Advances, Happens, OnlyShifts};
ghost use Rattle.ent_admission.specs.Groups.{HasTold, told_database, told_journal};
ghost use Rattle.ent_admission.specs.Moves.{Chain};
ghost use Rattle.ent_epoch.specs.Epoch.{begun};
ghost use Rattle.ent_form.specs.OpeningFault.{opening_fault};
ghost use Rattle.ent_protocol.specs.Reached.{book_of};

use ent_epoch::resolved_runs_are_legal;
use ent_feed::{groups_give_the_journal, groups_give_the_settled_tables};
use ent_form::FormFault;
use ent_protocol_laws::{journals_grow_by_commits, steps_go_on};

/// What advances twice advances, and so does what only shifts.
pub fn acts_go_on()
    ensures stays { (a : Admission) → Advances a a }
    ensures advances { (first between last : Admission)
        → Advances first between
        → Advances between last
        → Advances first last }
    ensures shifts { (first between last : Admission)
        → OnlyShifts first between
        → OnlyShifts between last
        → OnlyShifts first last }
    ensures same { (a : Admission) → OnlyShifts a a }
    ensures shifting { (old new : Admission) → OnlyShifts old new → Advances old new }
{}

/// Whatever happens within an epoch, by acts and by clients' calls, the groups that came to the feed since it began
/// tell its journal and its settled tables, as far as they are told: their changes take the opening's tables to these,
/// one group after the other, and their commits are the journal's entries in order, each exactly once.
pub fn feeds_tell_what_committed()
    ensures { (count : ℕ) (first last : Admission)
        → opening_fault first.epoch.core.opening ≡ None
        → first.epoch ≡ begun first.epoch.number first.epoch.core.opening
        → Chain Happens count first last
        → last.epoch.number ≡ first.epoch.number
        → HasTold first last }
{
    journals_grow_by_commits::<FormFault>();
    steps_go_on::<FormFault>();
    resolved_runs_are_legal();
    groups_give_the_journal();
    groups_give_the_settled_tables();
}

/// Where all is told, as it is at rest, the journal that is told is the whole one, and the settled tables that are told
/// are those of the book.
pub fn feeds_tell_all_at_rest()
    ensures journal { (a : Admission) → IsAllTold a → told_journal a.epoch ≡ a.epoch.core.journal }
    ensures tables { (a : Admission) → IsAllTold a → told_database a.epoch ≡ (book_of a.epoch.core).database }
{}
