//! How far a core is told of.
ghost use Rattle.std.specs.Prelude.{◌≡◌, ◌∷◌, ◌+◌, ◌<◌, ◌≤◌, ◌^◌, [], All, IfErr, IfOk, length};
ghost use Rattle.std.specs.List.{IsDistinct};
ghost use Rattle.ent_sched.specs.Passed.{reply_seen};
ghost use Rattle.ent_protocol.specs.Event.{Event};
ghost use Rattle.ent_protocol.specs.Reached.{table_names};
ghost use Rattle.ent_semantics.specs.Database.{same_name};
ghost use Rattle.ent_sched.specs.Watching.{TellsOf, heard_of};
ghost use Rattle.ent_value.specs.declared.refusal.Refusal.TheVariants.{Fault};
ghost use Rattle.ent_feed.specs.Group.{AreNumbered};
ghost use Rattle.ent_feed.specs.Tables.{rows_in};
ghost use Rattle.ent_feed.specs.declared.group.Group.{Group as GroupSeen};
ghost use Rattle.ent_epoch.specs.Publishing.{AreGroupsOf, IsGroupOfRest};
ghost use Rattle.ent_epoch.specs.Telling.{HaveTickets, HearsOn, KeepsUp, TellsRest, groups_due, telling_at};

use crate::notes::{Note, put_note, settled_tables};
use crate::notes_law::{groups_tell_the_rest, settled_tables_are_declared, what_is_told_stands};
use crate::publishing::GroupSource;
use ent_eval::Done;
use ent_feed::{Group, NoNumber};
use ent_rel::Table;
use ent_sched::{Core, MadeEvent, Reply, Watcher};
use ent_value::Refusal;
use ent_waiting::Ticket;
use std::alloc::{AllocError, Global};
use std::marker::Model;
use std::sync::Arc;

/// How far a core is told of, and what was noted of its commits since. It is the watcher of the core's runs. Contracts
/// see how many entries of the journal are told, the settled tables behind them, what was noted, and whether that is
/// all that there was: where memory ran out it isn't.
#[derive(Drop)]
pub struct Telling {
    alloc: Global,
    entries: usize,
    tables: Vec<Arc<Table>>,
    notes: Vec<Note>,
    is_whole: bool,
}

impl Model for Telling {
    ghost use Rattle.std.specs.Coded.{codes};
    ghost use Rattle.ent_rel.specs.Relation.{coded_rows};
    ghost use Rattle.ent_feed.specs.Tables.{rows_in};
    ghost use Rattle.ent_epoch.specs.Telling.{Telling};

    ghost Value = { Telling };

    ghost coded = { Prim.hlevel (codes, coded_rows) };

    ghost view = { λ t. record {
      entries = t.entries;
      tables = rows_in t.tables.items;
      notes = record { notes = t.notes.items; is_whole = t.is_whole };
    } };
}

impl Telling {
    /// All that happened to the core is told.
    pub fn of(alloc: Global, core: &Core) -> Result<Self, AllocError>
        ensures { IfOk result (λ telling. telling ≡ telling_at core.now) }
    {
        Ok(Telling {
            alloc,
            entries: core.journal().len(),
            tables: settled_tables(alloc, core)?,
            notes: Vec::new(alloc),
            is_whole: true,
        })
    }

    /// How many entries of the journal are told.
    pub fn entries(&self) -> usize
        ensures { result ≡ self.now.entries }
    {
        self.entries
    }

    /// The groups that tell what happened to the core since, of which the first has this number: one for each commit,
    /// or one for all of them where memory ran out while they were noted. The tickets stand by transaction.
    pub fn groups(
        &self,
        alloc: Global,
        number: u64,
        epoch: u64,
        tickets: &[Ticket],
        core: &Core,
    ) -> Result<Vec<Group>, Refusal<NoNumber>>
        requires keeps_up { KeepsUp self.now core.now }
        requires tickets { HaveTickets tickets.now core.now.journal }
        ensures told { IfOk result (λ groups. TellsRest tickets.now self.now core.now groups.items) }
        ensures numbered { IfOk result (λ groups.
            AreNumbered number groups.items (number + length groups.items)) }
        ensures fits { IfOk result (λ groups. number + length groups.items < 2 ^ 64) }
        ensures due { IfOk result (λ groups. length groups.items ≡ groups_due self.now) }
        ensures epoch { IfOk result (λ groups. All (λ group. group.epoch ≡ epoch) groups.items) }
        ensures ended { IfOk result (λ groups. All (λ group. group.ended ≡ []) groups.items) }
        ensures no_number { IfErr result (λ refusal. refusal ≡ Fault (record {})
            → 2 ^ 64 ≤ number + groups_due self.now) }
    {
        what_is_told_stands();
        settled_tables_are_declared();
        groups_tell_the_rest();
        core.is_reached();
        let source = GroupSource {
            epoch,
            opening: core.opening(),
            journal: core.journal(),
            tickets,
        };
        if self.is_whole {
            self.noted_groups(alloc, number, source)
        } else {
            let behind = settled_tables(alloc, core)?;
            self.one_group(alloc, number, source, behind.as_slice())
        }
    }

    /// One group for each note.
    fn noted_groups(
        &self,
        alloc: Global,
        number: u64,
        source: GroupSource<'_>,
    ) -> Result<Vec<Group>, Refusal<NoNumber>>
        requires distinct { IsDistinct same_name (table_names source.opening.now) }
        requires tables { length self.now.tables ≡ length source.opening.now.tables }
        requires notes { All (λ note. length note.tables ≡ length source.opening.now.tables) self.now.notes.notes }
        ensures groups { IfOk result (λ groups. AreGroupsOf source.entry.tickets.now source.entry.opening.now
            source.entry.journal.now self.now.tables self.now.notes.notes groups.items) }
        ensures numbered { IfOk result (λ groups.
            AreNumbered number groups.items (number + length groups.items)) }
        ensures fits { IfOk result (λ groups. number + length groups.items < 2 ^ 64) }
        ensures due { IfOk result (λ groups. length groups.items ≡ length self.now.notes.notes) }
        ensures epoch { IfOk result (λ groups. All (λ group. group.epoch ≡ source.entry.epoch) groups.items) }
        ensures ended { IfOk result (λ groups. All (λ group. group.ended ≡ []) groups.items) }
        ensures no_number { IfErr result (λ refusal. refusal ≡ Fault (record {})
            → 2 ^ 64 ≤ number + length self.now.notes.notes) }
    {
        let count = self.notes.len() as u64;
        if number.checked_add(count).is_none() {
            return Err(Refusal::Fault(NoNumber));
        }
        let groups = source.groups_of(
            alloc,
            number,
            self.tables.as_slice(),
            self.notes.as_slice(),
        )?;
        Ok(groups)
    }

    /// One group of all that was committed since what is told. `behind` has the tables as they are settled now.
    fn one_group(
        &self,
        alloc: Global,
        number: u64,
        source: GroupSource<'_>,
        behind: &[Arc<Table>],
    ) -> Result<Vec<Group>, Refusal<NoNumber>>
        requires distinct { IsDistinct same_name (table_names source.opening.now) }
        requires tables { length self.now.tables ≡ length source.opening.now.tables }
        requires behind { length behind.now ≡ length source.opening.now.tables }
        requires entries { self.now.entries ≤ length source.journal.now }
        ensures group { IfOk result (λ groups. (group : GroupSeen)
            × (groups.items ≡ group ∷ [])
            × IsGroupOfRest source.entry.tickets.now source.entry.opening.now source.entry.journal.now
            self.now.entries self.now.tables (rows_in behind.now) group) }
        ensures numbered { IfOk result (λ groups. AreNumbered number groups.items (number + 1)) }
        ensures fits { IfOk result (λ groups. number + 1 < 2 ^ 64) }
        ensures epoch { IfOk result (λ groups. All (λ group. group.epoch ≡ source.entry.epoch) groups.items) }
        ensures ended { IfOk result (λ groups. All (λ group. group.ended ≡ []) groups.items) }
        ensures no_number { IfErr result (λ refusal. refusal ≡ Fault (record {}) → 2 ^ 64 ≤ number + 1) }
    {
        if number == u64::MAX {
            return Err(Refusal::Fault(NoNumber));
        }
        let group = source.group_of_rest(
            alloc,
            number,
            self.entries,
            self.tables.as_slice(),
            behind,
        )?;
        let mut groups = Vec::with_capacity(alloc, 1)?;
        groups.push(group)?;
        Ok(groups)
    }
}

impl Watcher for Telling {
    type Mark = ();

    ghost hears = { HearsOn };

    ghost marks = { λ mark done. Unit {0} };

    fn listens(&self) -> bool {
        true
    }

    fn mark(&self, _done: &Done) {}

    fn tell(&mut self, _told: MadeEvent<()>, reply: &Reply, core: &Core)
        ensures { (event : Event)
            → TellsOf (λ mark done. Unit {0}) _told event
            → HearsOn self.old (heard_of event (reply_seen reply.now) core.now) self.new }
    {
        if let Reply::Committed { first, members } = reply {
            let members = members.unpacked();
            let noted = put_note(self.alloc, &mut self.notes, *first, &members, core);
            if noted.is_err() {
                self.is_whole = false;
            }
        }
    }
}
