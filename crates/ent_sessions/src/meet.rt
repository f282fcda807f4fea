//! Two workers of a whole run: the first transaction's job is held until the second one's has come.
use crate::gates::{Flags, Meet};
use anyhow::{Context, Result, ensure};
use ent_serve::serve_input;
use ent_sql::parse_input;
use std::alloc::Global;
use std::sync::Wait;
use std::thread::Threads;

const INPUT: &str = "CREATE TABLE A (x INT); CREATE TABLE B (x INT); INSERT INTO A VALUES (1);
BEGIN TRANSACTION; SELECT * FROM A; COMMIT;
BEGIN TRANSACTION; INSERT INTO B VALUES (7); COMMIT;";

pub(crate) fn check<R: Threads + Wait + Sync>(rt: &R, alloc: Global) -> Result<()> {
    let flags = Flags::new();
    let input = parse_input(alloc, INPUT)
        .ok()
        .context("the input can't be read")?;
    let book = serve_input(rt, alloc, input, 2, Meet { flags: &flags }).ok();
    let book = book.context("there is no book")?;
    ensure!(!flags.gave_up(), "the gate waited for nothing");
    ensure!(book.journal.len() == 2, "not both have committed");
    Ok(())
}
