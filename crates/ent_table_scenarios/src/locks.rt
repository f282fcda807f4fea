//! Locks on tables: `== locks`. A use is written `T:shared` or `T:exclusive`.
use crate::groups::{push, put_transaction, read_members};
use anyhow::{Context, Result, bail};
use ent_group::{Members, Tx};
use ent_lock::{Answer, LockTable, Mode};
use ent_scenario_files::replies::{Out, put};
use ent_scenario_files::words::{name, number};
use ent_value::Name;
use std::alloc::Global;

/// The uses that a call names, and the transactions behind its word `pass`.
#[derive(Drop)]
struct Asked {
    uses: Vec<(Name, Mode)>,
    pass: Members,
}

fn read_use(alloc: Global, word: &str) -> Result<(Name, Mode)> {
    let (table, mode) = word.split_once(':').context("a use is written T:shared")?;
    let mode = match mode {
        "shared" => Mode::Shared,
        "exclusive" => Mode::Exclusive,
        _ => bail!("this is no mode"),
    };
    Ok((name(alloc, table)?, mode))
}

fn read_asked(alloc: Global, words: &[&str]) -> Result<Asked> {
    let mut uses = Vec::new(alloc);
    let mut pass = Members::new();
    let mut is_passing = false;
    for word in words {
        if *word == "pass" {
            is_passing = true;
        } else if is_passing {
            push(&mut pass, number(word)?);
        } else {
            uses.push(read_use(alloc, word)?)?;
        }
    }
    Ok(Asked { uses, pass })
}

pub(crate) fn reply(
    alloc: Global,
    locks: &mut LockTable<Name>,
    call: &[&str],
    out: &mut Out,
) -> Result<()> {
    match call {
        ["ask", tx, words @ ..] => ask(alloc, locks, number(tx)?, words, out),
        ["drop", words @ ..] => {
            locks.drop_group(&read_members(words)?);
            put(out, "dropped");
            Ok(())
        }
        _ => bail!("locks know no such call"),
    }
}

fn ask(
    alloc: Global,
    locks: &mut LockTable<Name>,
    tx: Tx,
    words: &[&str],
    out: &mut Out,
) -> Result<()> {
    let asked = read_asked(alloc, words)?;
    let answer = locks.ask(tx, asked.uses.as_slice(), &asked.pass);
    drop(asked);
    match answer? {
        Answer::Granted => put(out, "granted"),
        Answer::Blocked(holder) => {
            put(out, "blocked ");
            put_transaction(out, Some(holder))
        }
    }
    Ok(())
}
