//! A table and its changes: `== table`.
ghost use Rattle.std.specs.Prelude.{◌≡◌, All, IfOk};
ghost use Rattle.ent_value.specs.Value.{kinds_of};

use anyhow::{Context, Result, bail};
use ent_rel::{Delta, Table, TableFull};
use ent_scenario_files::replies::{
    Out, put, put_kind, put_number, put_row, put_shown, put_value, yes_or_no,
};
use ent_scenario_files::words::{index, kinds, row_of, rows_of};
use ent_value::{Kind, Refusal, Row, Sequence, Value};
use std::alloc::Global;
use std::sync::Arc;

pub(crate) fn reply(alloc: Global, table: &mut Table, call: &[&str], out: &mut Out) -> Result<()> {
    match call {
        ["new", word] => {
            put_in_place(table, Table::new(alloc, kinds(alloc, word)?), out);
            Ok(())
        }
        ["load", word, rows @ ..] => load(alloc, table, word, rows, out),
        ["fill", from, to] => fill(alloc, table, index(from)?, index(to)?, out),
        ["copy"] => copy(alloc, table, out),
        ["insert", word] => insert(alloc, table, word, out),
        ["delete_above", least] => delete(alloc, table, least, out),
        ["replace_above", least, word] => replace(alloc, table, least, word, out),
        ["change", removed, added] => change(alloc, table, removed, added, out),
        _ => reply_of(alloc, table, call, out),
    }
}

/// The reply to a call that changes nothing.
fn reply_of(alloc: Global, table: &Table, call: &[&str], out: &mut Out) -> Result<()> {
    match call {
        ["rows"] => put_rows(alloc, table, out)?,
        ["is_empty"] => put(out, yes_or_no(table.is_empty())),
        ["contains", word] => put_contains(alloc, table, word, out)?,
        ["kinds"] => put_kinds(table.kinds(), out),
        ["is_table_of", rows @ ..] => put_is_table_of(alloc, table, rows, out)?,
        _ => bail!("tables know no such call"),
    }
    Ok(())
}

fn put_rows(alloc: Global, table: &Table, out: &mut Out) -> Result<()> {
    let rows = table.rows(alloc)?;
    let mut before = "";
    for row in rows.as_slice() {
        put(out, before);
        put_row(alloc, out, row);
        before = " ";
    }
    Ok(())
}

fn put_kinds(kinds: &[Kind], out: &mut Out) {
    let mut before = "";
    for kind in kinds {
        put(out, before);
        put_kind(out, *kind);
        before = " ";
    }
}

fn put_contains(alloc: Global, table: &Table, word: &str, out: &mut Out) -> Result<()> {
    let row = row_of(alloc, word, table.kinds())?;
    let is_there = table.contains(&row);
    drop(row);
    put(out, yes_or_no(is_there));
    Ok(())
}

/// Replies whether these are the table's rows.
fn put_is_table_of(alloc: Global, table: &Table, rows: &[&str], out: &mut Out) -> Result<()> {
    let kinds = Vec::from_slice(alloc, table.kinds())?;
    let rows = rows_of(alloc, rows, kinds.as_slice())?;
    let other = loaded(alloc, kinds, rows).ok().context("no table")?;
    let is_same = table.is_same(&other);
    drop(other);
    put(out, yes_or_no(is_same));
    Ok(())
}

/// Puts a table in another's place, and replies how many rows it has.
fn put_in_place(table: &mut Table, other: Table, out: &mut Out) {
    *table = other;
    put_number(out, table.len());
}

fn copy(alloc: Global, table: &mut Table, out: &mut Out) -> Result<()> {
    let copy = table.copy(alloc)?;
    put_in_place(table, copy, out);
    Ok(())
}

fn load(alloc: Global, table: &mut Table, word: &str, rows: &[&str], out: &mut Out) -> Result<()> {
    let kinds = kinds(alloc, word)?;
    let rows = rows_of(alloc, rows, kinds.as_slice())?;
    put_changed(table, loaded(alloc, kinds, rows), out)
}

fn fill(alloc: Global, table: &mut Table, from: usize, to: usize, out: &mut Out) -> Result<()> {
    put_changed(table, filled(alloc, from, to)?, out)
}

/// Puts a table in another's place, and replies how many rows it has; or replies that there is none.
fn put_changed(
    table: &mut Table,
    changed: Result<Table, Refusal<TableFull>>,
    out: &mut Out,
) -> Result<()> {
    match changed {
        Ok(changed) => put_in_place(table, changed, out),
        Err(Refusal::Fault(TableFull)) => put(out, "full"),
        Err(Refusal::Memory) => bail!("memory ran out"),
    }
    Ok(())
}

/// Loads a table of the numbers from one up to another.
fn filled(alloc: Global, from: usize, to: usize) -> Result<Result<Table, Refusal<TableFull>>> {
    let mut kinds = Vec::new(alloc);
    kinds.push(Kind::Int)?;
    let rows = number_rows(alloc, from, to, kinds.as_slice())?;
    Ok(loaded(alloc, kinds, rows))
}

/// The table of some rows; the rows of one that is refused are let go.
fn loaded(alloc: Global, kinds: Vec<Kind>, rows: Vec<Row>) -> Result<Table, Refusal<TableFull>>
    requires { All (λ row. kinds_of row ≡ kinds.items) rows.items }
{
    match Table::load(alloc, kinds, rows) {
        Ok(table) => Ok(table),
        Err(refused) => Err(refused.refusal),
    }
}

/// The table of some rows, as it is shared.
pub(crate) fn shared_table(alloc: Global, kinds: Vec<Kind>, rows: Vec<Row>) -> Result<Arc<Table>>
    requires { All (λ row. kinds_of row ≡ kinds.items) rows.items }
{
    let table = loaded(alloc, kinds, rows).ok().context("no table")?;
    Ok(Arc::new(alloc, table)?)
}

fn number_rows(alloc: Global, from: usize, to: usize, kinds: &[Kind]) -> Result<Vec<Row>>
    ensures { IfOk result (λ rows. All (λ row. kinds_of row ≡ kinds.now) rows.items) }
{
    let mut rows = Vec::new(alloc);
    for number in from..to {
        let text = format!(in alloc; "({number})")?;
        let row = row_of(alloc, text.as_str(), kinds);
        drop(text);
        rows.push(row?)?;
    }
    Ok(rows)
}

/// The number that a row begins with, else 0.
fn number_of(row: &Row) -> i64 {
    match row.values() {
        [Value::Int(number), ..] => *number,
        _ => 0,
    }
}

/// Replies the count of a change, and makes it, by a copy of what it says.
fn put_count(
    alloc: Global,
    table: &mut Table,
    count: u64,
    delta: &Delta,
    out: &mut Out,
) -> Result<()>
    requires { All (λ row. kinds_of row ≡ table.old.kinds) delta.now.added }
{
    put(out, "count ");
    put_shown(out, &count);
    put(out, ", rows ");
    let copy = delta.copy(alloc)?;
    let changed = table.apply(alloc, &copy);
    drop(copy);
    put_changed(table, changed, out)
}

fn insert(alloc: Global, table: &mut Table, word: &str, out: &mut Out) -> Result<()> {
    let row = row_of(alloc, word, table.kinds())?;
    let inserted = table.insert(alloc, &row);
    drop(row);
    match inserted {
        Ok((count, delta)) => put_count(alloc, table, count, &delta, out)?,
        Err(Refusal::Fault(TableFull)) => put(out, "full"),
        Err(Refusal::Memory) => bail!("memory ran out"),
    }
    Ok(())
}

/// Deletes the rows that begin with a number above one.
fn delete(alloc: Global, table: &mut Table, least: &str, out: &mut Out) -> Result<()> {
    let least = least.parse::<i64>().context("this is no number")?;
    let (count, delta) = table.delete_rows(alloc, |row| number_of(row) > least)?;
    put_count(alloc, table, count, &delta, out)
}

/// Replaces the rows that begin with a number above one, each by one row; or by none, for the word `fault`.
fn replace(alloc: Global, table: &mut Table, least: &str, word: &str, out: &mut Out) -> Result<()> {
    let least = least.parse::<i64>().context("this is no number")?;
    if word == "fault" {
        return put_fault_of_change(alloc, table, least, out);
    }
    let image = row_of(alloc, word, table.kinds())?;
    let replaced = table.replace(alloc, |row| number_of(row) > least, |_| image.copy(alloc));
    drop(image);
    match replaced {
        Ok((count, delta)) => put_count(alloc, table, count, &delta, out)?,
        Err(_) => bail!("memory ran out"),
    }
    Ok(())
}

/// Replies the fault of a change that finds no image for a row: that row's number.
fn put_fault_of_change(alloc: Global, table: &Table, least: i64, out: &mut Out) -> Result<()> {
    let replaced = table.replace(
        alloc,
        |row| number_of(row) > least,
        |row| Err(number_of(row)),
    );
    match replaced {
        Ok((count, delta)) => {
            drop(delta);
            put_shown(out, &count);
        }
        Err(Refusal::Fault(number)) => put_fault(alloc, number, out),
        Err(Refusal::Memory) => bail!("memory ran out"),
    }
    Ok(())
}

fn put_fault(alloc: Global, number: i64, out: &mut Out) {
    put(out, "fault of ");
    put_value(alloc, out, &Value::Int(number))
}

/// Makes a change that takes one row out, and puts one in; a `-` stands for none.
fn change(
    alloc: Global,
    table: &mut Table,
    removed: &str,
    added: &str,
    out: &mut Out,
) -> Result<()> {
    let delta = Delta {
        removed: Sequence::from_vec(listed(alloc, removed, table.kinds())?),
        added: Sequence::from_vec(listed(alloc, added, table.kinds())?),
    };
    let changed = table.apply(alloc, &delta);
    drop(delta);
    put_changed(table, changed, out)
}

fn listed(alloc: Global, word: &str, kinds: &[Kind]) -> Result<Vec<Row>>
    ensures { IfOk result (λ rows. All (λ row. kinds_of row ≡ kinds.now) rows.items) }
{
    if word == "-" {
        rows_of(alloc, &[], kinds)
    } else {
        rows_of(alloc, &[word], kinds)
    }
}
