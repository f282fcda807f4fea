//! The tables of a core, and their undo log.
ghost use Rattle.std.specs.Prelude.{◌≡◌, ◌<◌, List, [], None, IfOk, OnOk, OnErr, length, map, slice_get};
ghost use Rattle.std.specs.Arc.{arc_value};
ghost use Rattle.std.specs.List.{AllByRecursion};
ghost use Rattle.std.specs.Option.{option_map};
ghost use Rattle.ent_tree.specs.declared.declaration.Create.{Create};
ghost use Rattle.ent_form.specs.Catalogue.{schemas_of};
ghost use Rattle.ent_form.specs.OpeningFault.{opening_fault};
ghost use Rattle.ent_ordinary.specs.Tables.{kinds_in, rows_in};
ghost use Rattle.ent_ordinary.specs.Change.{IsApplicable};
ghost use Rattle.ent_protocol.specs.Member.{seen_now};
ghost use Rattle.ent_protocol.specs.Reached.{opened};
ghost use Rattle.ent_protocol.specs.Rollback.{put_back};
ghost use Rattle.ent_protocol.specs.State.{Member};
ghost use Rattle.ent_tables.specs.Stored.{changed, kinds_declared, kinds_of, relation_at, rolled_back};
ghost use Rattle.ent_tables.specs.Stored.{rolled_back_with, rows_of, settled, settled_with, taken_back};

use crate::at_number::tables_seen;
use ent_form::Catalogue;
use ent_group::{Members, Tx};
use ent_loading::load_tables;
use ent_members::Use;
use ent_ordinary::{table_at, table_changed};
use ent_rel::{Delta, NumberedTable, Table};
use ent_tree::Opening;
use ent_undo::{UndoLog, rollback_goes_newest_first};
use ent_value::Sequence;
use std::alloc::{AllocError, Global};
use std::marker::Model;
use std::sync::Arc;

/// The tables of a core as they stand, in the order of their declaration, and what members of its run changed in them.
/// A table is named by its number, counted from 0. Contracts see the kinds of each table, its rows, and the changes
/// that may still be taken back, the newest first.
#[derive(Drop)]
pub struct StoredTables {
    tables: Vec<Arc<Table>>,
    log: UndoLog,
}

impl Model for StoredTables {
    ghost use Rattle.std.specs.Prelude.{map};
    ghost use Rattle.std.specs.Arc.{arc_value};
    ghost use Rattle.std.specs.Coded.{codes};
    ghost use Rattle.ent_rel.specs.Relation.{coded_rows};
    ghost use Rattle.ent_ordinary.specs.Tables.{kinds_in};
    ghost use Rattle.ent_tables.specs.Stored.{AreOfTables, Stored, stored_of};

    ghost Value = { Stored };

    ghost coded = { Prim.hlevel (codes, coded_rows) };

    ghost view = { λ s. stored_of (map arc_value s.tables.items) s.log };

    ghost invariant = { λ s. AreOfTables (kinds_in (map arc_value s.tables.items)) s.log };
}

impl StoredTables {
    /// The tables of an opening without a fault, each with its rows. Nothing is changed in them.
    pub fn open(alloc: Global, catalogue: &Catalogue, opening: &Opening) -> Result<Self, AllocError>
        requires tables { catalogue.now.tables ≡ schemas_of opening.now.tables }
        requires formed { opening_fault opening.now ≡ None }
        ensures kinds { IfOk result (λ stored. stored.kinds ≡ kinds_declared opening.now.tables) }
        ensures tables { IfOk result (λ stored. stored.tables ≡ (opened opening.now).tables) }
        ensures changes { IfOk result (λ stored. stored.changes ≡ []) }
    {
        let tables = load_tables(alloc, catalogue, opening)?;
        Ok(StoredTables {
            tables,
            log: UndoLog::new(alloc),
        })
    }

    /// How many tables there are.
    pub fn len(&self) -> usize
        ensures tables { result ≡ length self.now.tables }
        ensures kinds { result ≡ length self.now.kinds }
    {
        self.tables.len()
    }

    /// The table of a number, where there is one. It takes no memory.
    pub fn table(&self, number: usize) -> Option<&Table>
        ensures rows { option_map (λ table. table.now.rows) result ≡ slice_get self.now.tables number }
        ensures kinds { option_map (λ table. table.now.kinds) result ≡ slice_get self.now.kinds number }
    {
        match self.tables.get(number) {
            Some(table) => Some(&**table),
            None => None,
        }
    }

    /// The table of a number as it stood before the first change of it that may still be taken back, else as it stands,
    /// where there is one. It takes no memory.
    pub fn settled(&self, number: usize) -> Option<&Arc<Table>>
        ensures rows { option_map (λ table. rows_of (arc_value table.now)) result
            ≡ slice_get (put_back self.now.changes self.now.tables) number }
        ensures kinds { option_map (λ table. kinds_of (arc_value table.now)) result ≡ slice_get self.now.kinds number }
    {
        match self.log.oldest_of(number) {
            Some(before) => Some(before),
            None => self.tables.get(number),
        }
    }

    /// The tables in the order of their declaration.
    pub fn as_slice(&self) -> &[Arc<Table>]
        ensures tables { rows_in (map arc_value result.now) ≡ self.now.tables }
        ensures kinds { kinds_in (map arc_value result.now) ≡ self.now.kinds }
    {
        self.tables.as_slice()
    }

    /// The tables of some uses as they stand, in the order of the uses. They are shared, so that no row is copied.
    pub fn seen(&self, alloc: Global, uses: &[Use]) -> Result<Sequence<NumberedTable>, AllocError>
        requires { AllByRecursion (λ own. own.table < length self.now.tables) uses.now }
        ensures { IfOk result (λ seen. (declared : List Create) → kinds_declared declared ≡ self.now.kinds
            → seen ≡ seen_now declared self.now.tables uses.now) }
    {
        tables_seen(alloc, self.tables.as_slice(), uses)
    }

    /// Makes a change of the table of a number, and notes how it stood. Where memory runs out nothing changes. A change
    /// that was made can be taken back at once, by [`take_back`](StoredTables::take_back).
    pub fn change(
        &mut self,
        alloc: Global,
        tx: Tx,
        table: usize,
        delta: &Delta,
    ) -> Result<(), AllocError>
        requires within { table < length self.old.tables }
        requires applicable { IsApplicable (relation_at self.old table) delta.now }
        ensures ok { OnOk result (self.new ≡ changed tx table delta.now.removed delta.now.added self.old) }
        ensures err { OnErr result (self.new ≡ self.old) }
        ensures undone { OnOk result (taken_back self.new ≡ self.old) }
    {
        let tables = self.tables.as_slice();
        let changed = table_changed(alloc, tables, table, delta)?;
        let before = table_at(tables, table)?;
        self.log.note(tx, table, before)?;
        self.tables[table] = changed;
        Ok(())
    }

    /// Takes the newest change back; where there is none, all stays. It takes no memory.
    pub fn take_back(&mut self)
        ensures { self.new ≡ taken_back self.old }
    {
        self.log.take_back(self.tables.as_mut_slice());
    }

    /// Takes back what these transactions changed, all of them together. It takes no memory.
    pub fn roll_back(&mut self, gone: &Members)
        ensures numbers { self.new ≡ rolled_back gone.now self.old }
        ensures members { (members : List Member) → gone.now ≡ map (λ member. member.tx) members
            → self.new ≡ rolled_back_with members self.old }
    {
        // A law: a rollback puts the changes back one after the other.
        rollback_goes_newest_first();
        self.log.roll_back(gone, self.tables.as_mut_slice());
    }

    /// What these transactions changed stays, and can't be taken back any more. It takes no memory.
    pub fn settle(&mut self, gone: &Members)
        ensures numbers { self.new ≡ settled gone.now self.old }
        ensures members { (members : List Member) → gone.now ≡ map (λ member. member.tx) members
            → self.new ≡ settled_with members self.old }
    {
        self.log.forget(gone);
    }
}
