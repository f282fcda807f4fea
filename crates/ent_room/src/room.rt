//! Rooms.
ghost use Rattle.std.specs.Prelude.{◌≡◌, ◌+◌, ◌<◌, ◌^◌, IfErr, IfOk, IfSome, OnErr, OnOk};
ghost use Rattle.std.specs.Option.{option_copied, option_map};
ghost use Rattle.ent_admission.specs.Acts.{Advances as AdmissionAdvances};
ghost use Rattle.ent_admission.specs.Admission.{IsAtRest, fresh};
ghost use Rattle.ent_admission.specs.Passed.{Busy, IsRenewed, NoNumber, TooManyRows, begun, carried_over, kinds_of_table, rows_together};
ghost use Rattle.ent_form.specs.OpeningFault.{opening_fault, unless};
ghost use Rattle.ent_protocol.specs.Lookup.{present_rows};
ghost use Rattle.ent_tree.specs.declared.limits.TheConstants.{MOST_OPENING_ROWS};
ghost use Rattle.ent_value.specs.Refusal.{Gives};
ghost use Rattle.ent_value.specs.declared.refusal.Refusal.TheVariants.{Fault};
ghost use Rattle.ent_room.specs.Room.{Follows, IsBookOf, without_book};

use crate::batch::Batch;
use crate::epoch_book::EpochBook;
use crate::prospects::Prospects;
use ent_admission::Admission;
pub use ent_admission::NotTurned;
use ent_form::FormFault;
use ent_prepare::Preparing;
use ent_rel::Table;
use ent_tree::Opening;
use ent_value::{Name, Refusal};
use ent_waiting::{Limits, Ticket};
use std::alloc::Global;
use std::marker::Model;

/// A driver with a waiting room in front of it. Contracts see an admission, which is who waits and the core behind, and
/// the book of the epoch that ended last.
#[derive(Drop)]
pub struct Room {
    pub(crate) alloc: Global,
    pub(crate) admission: Admission,
    pub(crate) preparing: Preparing,
    pub(crate) prospects: Prospects,
    /// The batch that is on.
    pub(crate) batch: Option<Batch>,
    /// The book of the epoch that ended last.
    pub(crate) last: Option<EpochBook>,
}

impl Model for Room {
    ghost use Rattle.std.specs.Prelude.{◌≡◌, IfSome};
    ghost use Rattle.std.specs.Coded.{codes};
    ghost use Rattle.ent_rel.specs.Relation.{coded_relation, coded_rows};
    ghost use Rattle.ent_form.specs.Catalogue.{schemas_of};
    ghost use Rattle.ent_room.specs.Room.{Follows, Room};

    ghost Value = { Room };

    ghost coded = { Prim.hlevel (codes, coded_rows, coded_relation) };

    ghost view = { λ r. record { admission = r.admission; last = r.last } };

    ghost invariant = { λ r. (r.preparing ≡ schemas_of r.admission.epoch.core.opening.tables)
        × IfSome r.last (Follows r.admission.epoch) };
}

impl Room {
    /// A room over an opening, in which nobody waits; or the opening's first fault of form. Its first epoch has this
    /// number. The first script that is put gets the ticket `next`, and the first group of the feed the number
    /// `next_group`; those below them are of an earlier process.
    pub fn open(
        alloc: Global,
        opening: Opening,
        number: u64,
        next: Ticket,
        next_group: u64,
        limits: Limits,
    ) -> Result<Self, Refusal<FormFault>>
        ensures { Gives (λ room. room) result (unless (opening_fault opening)
            (without_book (fresh number opening next next_group limits.most_waiters limits.most_ended))) }
    {
        let preparing = Preparing::of(alloc, &opening)?;
        let prospects = Prospects::new(alloc, opening.tables.len())?;
        Ok(Room {
            alloc,
            admission: Admission::open(alloc, opening, number, next, next_group, limits)?,
            preparing,
            prospects,
            batch: None,
            last: None,
        })
    }

    /// Who waits, and the core.
    pub fn admission(&self) -> &Admission
        ensures { result.now ≡ self.now.admission }
    {
        &self.admission
    }

    /// The table of a name as it stands, where one is declared.
    pub fn table(&self, name: &Name) -> Option<&Table>
        ensures rows { option_map (λ table. table.now.rows) result
            ≡ present_rows self.now.admission.epoch.core name.now }
        ensures kinds { option_map (λ table. table.now.kinds) result
            ≡ kinds_of_table self.now.admission.epoch.core.opening name.now }
    {
        self.admission.epoch().core().table(name)
    }

    /// The book of the epoch that ended last, by a turn or by a step.
    pub fn book(&self) -> Option<&EpochBook>
        ensures last { option_copied result ≡ self.now.last }
        ensures follows { IfSome result (λ last. Follows self.now.admission.epoch last.now) }
    {
        self.last.as_ref()
    }

    /// Ends the epoch, and keeps its book until another one ends. The next epoch begins over its tables, of which the
    /// drained ones are empty. Who waits goes on waiting. At a refusal, and where memory runs out, nothing changes.
    pub fn turn(&mut self, drained: &[Name]) -> Result<(), Refusal<NotTurned>>
        ensures at_rest { OnOk result (IsAtRest self.old.admission) }
        ensures book { OnOk result (IsBookOf self.old.admission.epoch self.new.last) }
        ensures begun { OnOk result (self.new.admission.epoch
            ≡ begun (self.old.admission.epoch.number + 1) self.new.admission.epoch.core.opening) }
        ensures renewed { OnOk result (IsRenewed self.old.admission.epoch.core.opening.tables
            (carried_over drained.now self.old.admission.epoch.core) self.new.admission.epoch.core.opening) }
        ensures list { self.new.admission.list ≡ self.old.admission.list }
        ensures coming { self.new.admission.coming ≡ self.old.admission.coming }
        ensures feed { self.new.admission.feed ≡ self.old.admission.feed }
        ensures news { self.new.admission.news ≡ self.old.admission.news }
        ensures advances { AdmissionAdvances self.old.admission self.new.admission }
        ensures err { OnErr result (self.new ≡ self.old) }
        ensures busy { IfErr result (λ refusal. refusal ≡ Fault Busy → ¬ IsAtRest self.old.admission) }
        ensures too_many { IfErr result (λ refusal. refusal ≡ Fault TooManyRows
            → MOST_OPENING_ROWS < rows_together self.old.admission.epoch.core.opening.tables
            (carried_over drained.now self.old.admission.epoch.core)) }
        ensures no_number { IfErr result (λ refusal. refusal ≡ Fault NoNumber
            → self.old.admission.epoch.number + 1 ≡ 2 ^ 64) }
    {
        let epoch = self.admission.epoch().number();
        let book = self.admission.turn(drained)?;
        self.last = Some(EpochBook { epoch, book });
        self.prospects.change_tables(
            self.admission.epoch().core().opening().tables.as_slice(),
            drained,
        );
        Ok(())
    }
}
