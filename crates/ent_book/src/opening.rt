//! The text of an opening: tables as they are at first.
ghost use Rattle.std.specs.Prelude.{◌≡◌, ◌++◌, IfOk, OnOk, length};
ghost use Rattle.ent_lists.specs.Sets as set;
ghost use Rattle.ent_semantics.specs.Database.{opening_database};
ghost use Rattle.ent_book.specs.Report.{rows_text};
ghost use Rattle.ent_book.specs.Report2.{column_text, columns_text, declared_columns, kind_text, more_columns_text};
ghost use Rattle.ent_book.specs.Report2.{opening_line, opening_table_text, opening_text};

use crate::piece::{append_number, append_rows};
use ent_rel::ascending;
use ent_tree::{Column, Create, Opening};
use ent_value::{Kind, Name, Row};
use std::alloc::{AllocError, Global};

fn append_kind(out: &mut Vec<u8>, kind: Kind) -> Result<(), AllocError>
    ensures { OnOk result (out.new.items ≡ out.old.items ++ kind_text kind) }
{
    match kind {
        Kind::Int => out.extend_from_slice(b"INT"),
        Kind::Text => out.extend_from_slice(b"TEXT"),
    }
}

fn append_column(out: &mut Vec<u8>, column: &Column) -> Result<(), AllocError>
    ensures { OnOk result (out.new.items ≡ out.old.items ++ column_text column.now) }
{
    out.extend_from_slice(column.name.name.as_bytes())?;
    out.push(b' ')?;
    append_kind(out, column.kind)
}

/// Columns, each behind a comma and a space.
fn append_more_columns(out: &mut Vec<u8>, columns: &[Column]) -> Result<(), AllocError>
    ensures { OnOk result (out.new.items ≡ out.old.items ++ more_columns_text columns.now) }
{
    for column in columns {
        out.extend_from_slice(b", ")?;
        append_column(out, column)?;
    }
    Ok(())
}

/// Columns, with a comma and a space between two of them.
fn append_columns(out: &mut Vec<u8>, columns: &[Column]) -> Result<(), AllocError>
    ensures { OnOk result (out.new.items ≡ out.old.items ++ columns_text columns.now) }
{
    match columns.split_first() {
        None => Ok(()),
        Some((first, more)) => {
            append_column(out, first)?;
            append_more_columns(out, more)
        }
    }
}

/// The columns of the first table that is declared under a name.
fn declared_columns<'a>(creates: &'a [Create], name: &Name) -> &'a [Column]
    ensures { result.now ≡ declared_columns creates.now name.now }
{
    for create in creates {
        if create.name.name == *name {
            return create.columns.as_slice();
        }
    }
    &[]
}

/// The rows of a table at first, ascending, each once.
fn opening_rows(alloc: Global, opening: &Opening, name: &Name) -> Result<Vec<Row>, AllocError>
    ensures { IfOk result (λ rows. rows.items ≡ set.ascending (opening_database opening.now name.now)) }
{
    let mut rows = Vec::new(alloc);
    for row in opening.rows.as_slice() {
        if row.table.name == *name {
            rows.push(row.row(alloc)?)?;
        }
    }
    ascending(rows)
}

fn append_opening_line(
    alloc: Global,
    out: &mut Vec<u8>,
    name: &Name,
    columns: &[Column],
    count: u64,
) -> Result<(), AllocError>
    ensures { OnOk result (out.new.items ≡ out.old.items ++ opening_line name.now columns.now count) }
{
    out.extend_from_slice(b"opening ")?;
    out.extend_from_slice(name.as_bytes())?;
    out.extend_from_slice(b" (")?;
    append_columns(out, columns)?;
    out.extend_from_slice(b") ")?;
    append_number(alloc, out, count)?;
    out.push(b'\n')?;
    Ok(())
}

/// A table of these columns and rows.
fn append_listed(
    alloc: Global,
    out: &mut Vec<u8>,
    name: &Name,
    columns: &[Column],
    rows: &[Row],
) -> Result<(), AllocError>
    ensures { OnOk result (out.new.items
        ≡ out.old.items ++ (opening_line name.now columns.now (length rows.now) ++ rows_text rows.now)) }
{
    append_opening_line(alloc, out, name, columns, rows.len() as u64)?;
    append_rows(alloc, out, rows)
}

fn append_opening_table(
    alloc: Global,
    out: &mut Vec<u8>,
    opening: &Opening,
    name: &Name,
) -> Result<(), AllocError>
    ensures { OnOk result (out.new.items
        ≡ out.old.items ++ opening_table_text name.now (declared_columns opening.now.tables name.now)
        (opening_database opening.now name.now)) }
{
    let rows = opening_rows(alloc, opening, name)?;
    let columns = declared_columns(opening.tables.as_slice(), name);
    append_listed(alloc, out, name, columns, rows.as_slice())
}

/// The tables of these names at first, in this order.
pub(crate) fn append_opening(
    alloc: Global,
    out: &mut Vec<u8>,
    opening: &Opening,
    names: &[Name],
) -> Result<(), AllocError>
    ensures { OnOk result (out.new.items ≡ out.old.items ++ opening_text opening.now names.now) }
{
    for name in names {
        append_opening_table(alloc, out, opening, name)?;
    }
    Ok(())
}
