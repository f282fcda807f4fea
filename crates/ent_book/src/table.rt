//! The tables of a book, and their text.
ghost use Rattle.std.specs.Prelude.{◌≡◌, ◌++◌, IfOk, MatchOption, OnErr, OnOk};
ghost use Rattle.ent_lists.specs.Sets as set;
ghost use Rattle.ent_book.specs.Report.{names_by_bytes, table_text, tables_text};
ghost use Rattle.ent_book.specs.Tables.{tables_database};

use crate::piece::{append_number, append_rows};
use ent_rel::Table;
use ent_tree::Opening;
use ent_value::Name;
use std::alloc::{AllocError, Global};
use std::sync::Arc;

/// A table under its name.
#[derive(Drop)]
pub struct NamedTable {
    pub name: Name,
    pub table: Arc<Table>,
}

/// The first table of a name; none where no table has it.
pub fn table_named<'a>(tables: &'a [NamedTable], name: &Name) -> Option<&'a Table>
    ensures { MatchOption result (tables_database tables.now name.now ≡ set.empty)
        (λ table. tables_database tables.now name.now ≡ table.now.rows) }
{
    for entry in tables {
        if entry.name == *name {
            return Some(&*entry.table);
        }
    }
    None
}

/// A table as the report has it: a line with its name and how many rows it has, and a line for each row, ascending.
/// Where memory runs out nothing is put.
pub fn append_table(
    alloc: Global,
    out: &mut Vec<u8>,
    name: &Name,
    table: &Table,
) -> Result<(), AllocError>
    ensures ok { OnOk result (out.new.items ≡ out.old.items ++ table_text name.now table.now.rows) }
    ensures err { OnErr result (out.new.items ≡ out.old.items) }
{
    let mut piece = Vec::new(alloc);
    put_table(alloc, &mut piece, name, table)?;
    out.extend_from_slice(piece.as_slice())
}

/// The same; where memory runs out some of it may have been put.
fn put_table(alloc: Global, out: &mut Vec<u8>, name: &Name, table: &Table) -> Result<(), AllocError>
    ensures { OnOk result (out.new.items ≡ out.old.items ++ table_text name.now table.now.rows) }
{
    out.extend_from_slice(b"table ")?;
    out.extend_from_slice(name.as_bytes())?;
    out.push(b' ')?;
    append_number(alloc, out, table.len() as u64)?;
    out.push(b'\n')?;
    let rows = table.rows(alloc)?;
    append_rows(alloc, out, rows.as_slice())
}

/// A name that no table has; it shows as a table of no row.
fn append_no_table(out: &mut Vec<u8>, name: &Name) -> Result<(), AllocError>
    ensures { OnOk result (out.new.items ≡ out.old.items ++ table_text name.now set.empty) }
{
    out.extend_from_slice(b"table ")?;
    out.extend_from_slice(name.as_bytes())?;
    out.extend_from_slice(b" 0\n")
}

/// The names of the declared tables, by their bytes, each once.
pub(crate) fn names_by_bytes(alloc: Global, opening: &Opening) -> Result<Vec<Name>, AllocError>
    ensures { IfOk result (λ names. names.items ≡ names_by_bytes opening.now) }
{
    let mut names = Vec::with_capacity(alloc, opening.tables.len())?;
    for create in opening.tables.as_slice() {
        names.push(create.name.name.copy(alloc)?)?;
    }
    names.sort()?;
    names.dedup();
    Ok(names)
}

/// The tables of these names, in this order.
pub(crate) fn append_tables(
    alloc: Global,
    out: &mut Vec<u8>,
    names: &[Name],
    tables: &[NamedTable],
) -> Result<(), AllocError>
    ensures { OnOk result (out.new.items
        ≡ out.old.items ++ tables_text names.now (tables_database tables.now)) }
{
    for name in names {
        match table_named(tables, name) {
            Some(table) => put_table(alloc, out, name, table)?,
            None => append_no_table(out, name)?,
        }
    }
    Ok(())
}
