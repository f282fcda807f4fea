//! The log of the tables that transactions changed, each as it stood before.
ghost use Rattle.std.specs.Prelude.{◌≡◌, ◌==◌, List, [], ◌∷◌, ◌++◌, map, filter, find, OnOk, OnErr, IfErr, slice_set};
ghost use Rattle.std.specs.Arc.{arc_value};
ghost use Rattle.std.specs.Option.{option_copied, option_map};
ghost use Rattle.ent_undo.specs.Change.{Change, of_others, rolled_back};
ghost use Rattle.ent_undo.specs.Records.{changes_in, is_record_of_others};

use ent_group::{Members, Tx};
use ent_rel::Table;
use std::alloc::{AllocFailed, Global};
use std::marker::Model;
use std::mem;
use std::sync::Arc;

/// A table as it stood before a transaction changed it.
#[derive(Drop)]
struct UndoRecord {
    tx: Tx,
    table: usize,
    before: Arc<Table>,
}

/// Exchanges the table of a record with the one that stands at its index, if the index is below the number of tables.
fn exchange(undo: &mut UndoRecord, tables: &mut [Arc<Table>])
    ensures tables { map arc_value tables.new
        ≡ slice_set (map arc_value tables.old) undo.old.table (arc_value undo.old.before) }
    ensures same { undo.new.tx ≡ undo.old.tx }
{
    if undo.table < tables.len() {
        mem::swap(&mut tables[undo.table], &mut undo.before);
    }
}

/// Puts the tables of these transactions' records back, newest first. What stood in their places goes into the
/// records.
fn put_back(records: &mut [UndoRecord], members: &Members, tables: &mut [Arc<Table>])
    ensures tables { map arc_value tables.new
        ≡ rolled_back members.now (changes_in records.old) (map arc_value tables.old) }
    ensures others { of_others members.now (changes_in records.new) ≡ of_others members.now (changes_in records.old) }
{
    for index in (0..records.len()).rev() {
        if members.contains(records[index].tx) {
            exchange(&mut records[index], tables);
        }
    }
}

/// The first record of a table, where there is one.
fn first_of(records: &[UndoRecord], table: usize) -> Option<&UndoRecord>
    ensures { option_copied result ≡ find (λ undo. undo.table == table) records.now }
{
    records.iter().find(|undo| undo.table == table)
}

/// Takes these transactions' records out.
fn remove_records(records: &mut Vec<UndoRecord>, members: &Members)
    ensures { records.new.items ≡ filter (is_record_of_others members.now) records.old.items }
{
    records.retain(|record| !members.contains(record.tx));
}

/// Tables as they stood before transactions changed them, for changes that may still be taken back. Contracts see
/// the list of these changes, the oldest first. A table is named by its index in the order of declaration, which is
/// its place in the slice of tables that a rollback is given.
///
/// Before a transaction puts a new table in a table's place, `note` is told of the one that stands there. A record
/// holds that table itself, so that a rollback moves it back and copies no row. `note` alone takes memory.
#[derive(Drop)]
pub struct UndoLog {
    records: Vec<UndoRecord>,
}

impl Model for UndoLog {
    ghost use Rattle.std.specs.Prelude.{List};
    ghost use Rattle.ent_undo.specs.Change.{Change, coded_changes};

    ghost Value = { List Change };

    ghost coded = { coded_changes };

    ghost use Rattle.ent_undo.specs.Records.{changes_in};

    ghost view = { λ log. changes_in log.records.items };
}

impl UndoLog {
    /// The log of no change. It takes no memory.
    pub fn new(alloc: Global) -> Self
        ensures { result ≡ [] }
    {
        UndoLog {
            records: Vec::new(alloc),
        }
    }

    /// Notes that a transaction changes the table at an index, which stands there as `before`. Where memory runs out
    /// nothing is noted, and the table comes back.
    pub fn note(
        &mut self,
        tx: Tx,
        table: usize,
        before: Arc<Table>,
    ) -> Result<(), AllocFailed<Arc<Table>>>
        ensures ok { OnOk result (self.new
            ≡ self.old ++ record { tx = tx; table = table; before = arc_value before } ∷ []) }
        ensures err { OnErr result (self.new ≡ self.old) }
        ensures returned { IfErr result (λ refused. refused.value ≡ before) }
    {
        match self.records.push(UndoRecord { tx, table, before }) {
            Ok(()) => Ok(()),
            Err(refused) => {
                let UndoRecord { before, .. } = refused.value;
                Err(AllocFailed { value: before })
            }
        }
    }

    /// Takes back all changes of some transactions together: each table that was noted for one of them stands again as
    /// it was noted first, every other one as it is, and the records of these transactions are gone. What others
    /// changed in such a table since is lost, so nobody else may have. It takes no memory. A record whose index is not
    /// below the number of tables puts nothing back.
    pub fn roll_back(&mut self, members: &Members, tables: &mut [Arc<Table>])
        ensures tables { map arc_value tables.new ≡ rolled_back members.now self.old (map arc_value tables.old) }
        ensures log { self.new ≡ of_others members.now self.old }
    {
        put_back(self.records.as_mut_slice(), members, tables);
        self.forget(members);
    }

    /// Takes back the newest change alone: its table stands again as it was noted, and the change is not noted any
    /// more. Where none is noted all stays. It takes no memory. A record whose index is not below the number of tables
    /// puts nothing back.
    pub fn take_back(&mut self, tables: &mut [Arc<Table>])
        ensures same { self.old ≡ [] → (self.new ≡ []) × (map arc_value tables.new ≡ map arc_value tables.old) }
        ensures log { (earlier : List Change) (newest : Change) → self.old ≡ earlier ++ newest ∷ []
            → self.new ≡ earlier }
        ensures tables { (earlier : List Change) (newest : Change) → self.old ≡ earlier ++ newest ∷ []
            → map arc_value tables.new ≡ slice_set (map arc_value tables.old) newest.table newest.before }
    {
        if let Some(mut undo) = self.records.pop() {
            exchange(&mut undo, tables);
        }
    }

    /// A table as it stood before the oldest change of it that is noted, where one is. It takes no memory.
    pub fn oldest_of(&self, table: usize) -> Option<&Arc<Table>>
        ensures { option_map (λ before. arc_value before.now) result
            ≡ option_map (λ change. change.before) (find (λ change. change.table == table) self.now) }
    {
        match first_of(self.records.as_slice(), table) {
            Some(oldest) => Some(&oldest.before),
            None => None,
        }
    }

    /// Takes the records of some transactions out, whose changes are to stay. It takes no memory.
    pub fn forget(&mut self, members: &Members)
        ensures { self.new ≡ of_others members.now self.old }
    {
        remove_records(&mut self.records, members);
    }
}
