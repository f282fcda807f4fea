//! Tables of numbers and the undo log of their changes: `== undo`.
use crate::groups::read_members;
use crate::table::shared_table;
use anyhow::{Result, bail};
use ent_rel::Table;
use ent_scenario_files::replies::{Out, put, put_number, put_row};
use ent_scenario_files::words::{index, number, rows_of};
use ent_undo::{UndoLog, log_tells_of_writes};
use ent_value::{Kind, Row};
use std::alloc::Global;
use std::mem;
use std::sync::Arc;

/// Tables of one column of numbers, and the log of what was written.
#[derive(Drop)]
pub(crate) struct Tables {
    tables: Vec<Arc<Table>>,
    log: UndoLog,
}

impl Tables {
    pub(crate) fn new(alloc: Global) -> Self {
        log_tells_of_writes();
        Tables {
            tables: Vec::new(alloc),
            log: UndoLog::new(alloc),
        }
    }
}

fn table_of(alloc: Global, words: &[&str]) -> Result<Arc<Table>> {
    let mut kinds = Vec::new(alloc);
    kinds.push(Kind::Int)?;
    let rows = rows_of(alloc, words, kinds.as_slice())?;
    shared_table(alloc, kinds, rows)
}

pub(crate) fn reply(
    alloc: Global,
    tables: &mut Tables,
    call: &[&str],
    out: &mut Out,
) -> Result<()> {
    carry_out(alloc, tables, call)?;
    put_tables(alloc, tables.tables.as_slice(), out);
    Ok(())
}

fn carry_out(alloc: Global, tables: &mut Tables, call: &[&str]) -> Result<()> {
    match call {
        ["table", rows @ ..] => add(alloc, tables, rows),
        ["write", tx, at, rows @ ..] => write(alloc, tables, number(tx)?, index(at)?, rows),
        ["roll_back", members @ ..] => roll_back(tables, members),
        ["take_back"] => {
            take_back(tables);
            Ok(())
        }
        ["forget", members @ ..] => forget(&mut tables.log, members),
        _ => bail!("the undo log knows no such call"),
    }
}

fn add(alloc: Global, tables: &mut Tables, rows: &[&str]) -> Result<()> {
    tables.tables.push(table_of(alloc, rows)?)?;
    Ok(())
}

fn roll_back(tables: &mut Tables, members: &[&str]) -> Result<()> {
    let members = read_members(members)?;
    let Tables { tables, log } = tables;
    log.roll_back(&members, tables.as_mut_slice());
    Ok(())
}

fn take_back(tables: &mut Tables) {
    let Tables { tables, log } = tables;
    log.take_back(tables.as_mut_slice());
}

fn forget(log: &mut UndoLog, members: &[&str]) -> Result<()> {
    let members = read_members(members)?;
    log.forget(&members);
    Ok(())
}

/// Puts a table in another's place, which is noted.
fn write(alloc: Global, tables: &mut Tables, tx: u64, at: usize, rows: &[&str]) -> Result<()> {
    let after = table_of(alloc, rows)?;
    if at >= tables.tables.len() {
        bail!("there is no such table");
    }
    let before = mem::replace(&mut tables.tables[at], after);
    tables.log.note(tx, at, before)?;
    Ok(())
}

/// Each table by its index, with its rows.
fn put_tables(alloc: Global, tables: &[Arc<Table>], out: &mut Out) {
    let mut before = "";
    for (at, table) in tables.iter().enumerate() {
        put(out, before);
        put_number(out, at);
        put(out, ":");
        put_rows(alloc, table, out);
        before = "; ";
    }
}

fn put_rows(alloc: Global, table: &Table, out: &mut Out) {
    match table.rows(alloc) {
        Ok(rows) => put_each(alloc, rows.as_slice(), out),
        Err(_) => out.stop(),
    }
}

fn put_each(alloc: Global, rows: &[Row], out: &mut Out) {
    for row in rows {
        put(out, " ");
        put_row(alloc, out, row);
    }
}
