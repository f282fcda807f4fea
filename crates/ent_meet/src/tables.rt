//! The text of the tables at the end.
ghost use Rattle.std.specs.Prelude.{◌≡◌, ◌++◌, IfOk, OnOk};
ghost use Rattle.std.specs.Option.{option_copied};
ghost use Rattle.ent_lists.specs.Sets as set;
ghost use Rattle.ent_book.specs.Report.{names_by_bytes, table_text, tables_text};
ghost use Rattle.ent_book.specs.Tables.{tables_database};
ghost use Rattle.ent_meet.specs.Text.{last_tables_text};

use ent_book::{NamedTable, append_table, table_named};
use ent_room::EpochBook;
use ent_tree::Opening;
use ent_value::Name;
use std::alloc::{AllocError, Global};

/// The names of the declared tables, by their bytes, each once.
fn names_by_bytes(alloc: Global, opening: &Opening) -> Result<Vec<Name>, AllocError>
    ensures { IfOk result (λ names. names.items ≡ names_by_bytes opening.now) }
{
    let mut names = Vec::with_capacity(alloc, opening.tables.len())?;
    for create in opening.tables.as_slice() {
        names.push(create.name.name.copy(alloc)?)?;
    }
    names.sort()?;
    names.dedup();
    Ok(names)
}

/// A name that no table has; it shows as a table of no row.
fn append_no_table(out: &mut Vec<u8>, name: &Name) -> Result<(), AllocError>
    ensures { OnOk result (out.new.items ≡ out.old.items ++ table_text name.now set.empty) }
{
    out.extend_from_slice(b"table ")?;
    out.extend_from_slice(name.as_bytes())?;
    out.extend_from_slice(b" 0\n")
}

fn append_named(
    alloc: Global,
    out: &mut Vec<u8>,
    names: &[Name],
    tables: &[NamedTable],
) -> Result<(), AllocError>
    ensures { OnOk result (out.new.items
        ≡ out.old.items ++ tables_text names.now (tables_database tables.now)) }
{
    for name in names {
        match table_named(tables, name) {
            Some(table) => append_table(alloc, out, name, table)?,
            None => append_no_table(out, name)?,
        }
    }
    Ok(())
}

/// The tables of a book; none where there is no book.
pub(crate) fn append_tables(
    alloc: Global,
    out: &mut Vec<u8>,
    last: Option<&EpochBook>,
) -> Result<(), AllocError>
    ensures { OnOk result (out.new.items ≡ out.old.items ++ last_tables_text (option_copied last.entry)) }
{
    let Some(last) = last else {
        return Ok(());
    };
    let book = last.book.book();
    let names = names_by_bytes(alloc, &book.opening)?;
    append_named(alloc, out, names.as_slice(), book.database.as_slice())
}
