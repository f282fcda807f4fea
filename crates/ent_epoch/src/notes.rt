//! Notes of commits.
ghost use Rattle.std.specs.Prelude.{◌≡◌, ◌∷◌, ◌++◌, ◌+◌, ◌<◌, ◌^◌, [], IfOk, OnErr, OnOk, length};
ghost use Rattle.ent_sched.specs.Passed.{numbered_from};
ghost use Rattle.ent_protocol.specs.Reached.{settled};
ghost use Rattle.ent_feed.specs.Tables.{rows_in};

use ent_group::{MOST_MEMBERS, Members};
use ent_rel::Table;
use ent_sched::Core;
use std::alloc::{AllocError, Global};
use std::marker::Model;
use std::sync::Arc;

/// What is kept of a commit: the number of its first entry, its members in order of their entries, and the settled
/// tables behind it, which are shared. Contracts see the numbers of its entries with their transactions, and the rows.
pub(crate) struct Note {
    first: u64,
    members: Members,
    tables: Vec<Arc<Table>>,
}

impl Drop for Note {
    fn drop(self) {
        let Note {
            first: _first,
            members: _members,
            tables: _tables,
        } = self;
    }
}

impl Model for Note {
    ghost use Rattle.std.specs.Coded.{codes};
    ghost use Rattle.ent_rel.specs.Relation.{coded_rows};
    ghost use Rattle.std.specs.Prelude.{◌+◌, ◌<◌, ◌^◌, length};
    ghost use Rattle.ent_sched.specs.Passed.{numbered_from};
    ghost use Rattle.ent_epoch.specs.Notes.{Note};
    ghost use Rattle.ent_feed.specs.Tables.{rows_in};

    ghost Value = { Note };

    ghost coded = { Prim.hlevel (codes, coded_rows) };

    ghost view = { λ n. record { entries = numbered_from n.first n.members; tables = rows_in n.tables.items } };

    ghost invariant = { λ n. n.first + length n.members < 2 ^ 64 };
}

impl Note {
    /// The number of its first entry, and its members in order of their entries.
    pub(crate) fn entries(&self) -> (u64, &Members)
        ensures entries { self.now.entries ≡ numbered_from result.0 result.1.now }
        ensures fits { result.0 + length result.1.now < 2 ^ 64 }
    {
        (self.first, &self.members)
    }

    /// The settled tables behind it.
    pub(crate) fn tables(&self) -> &[Arc<Table>]
        ensures { rows_in result.now ≡ self.now.tables }
    {
        self.tables.as_slice()
    }
}

/// The settled tables of a core, in the order of their declaration, which are shared.
pub(crate) fn settled_tables(alloc: Global, core: &Core) -> Result<Vec<Arc<Table>>, AllocError>
    ensures { IfOk result (λ tables. rows_in tables.items ≡ settled core.now) }
{
    let count = core.table_count();
    let mut tables = Vec::with_capacity(alloc, count)?;
    for number in 0..count {
        let Some(table) = core.settled_table(number) else {
            unreachable!();
        };
        tables.push(table.clone()?)?;
    }
    Ok(tables)
}

/// Puts the note of a commit behind others. Where memory runs out nothing is put.
pub(crate) fn put_note(
    alloc: Global,
    notes: &mut Vec<Note>,
    first: u64,
    members: &Members,
    core: &Core,
) -> Result<(), AllocError>
    ensures ok { OnOk result (notes.new.items ≡ notes.old.items
        ++ record { entries = numbered_from first members.now; tables = settled core.now } ∷ []) }
    ensures err { OnErr result (notes.new.items ≡ notes.old.items) }
{
    // The numbers of the entries fit, which no count of entries comes near to.
    if first > u64::MAX - MOST_MEMBERS as u64 {
        return Err(AllocError);
    }
    let _len = members.len();
    let tables = settled_tables(alloc, core)?;
    notes.push(Note {
        first,
        members: members.copy(),
        tables,
    })?;
    Ok(())
}
