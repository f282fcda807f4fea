//! Sessions of a manager whose refused calls are made again, and the load of an ordinary service.
//!
//! Without an argument the program makes two runs, each of which prints the same for every schedule:
//!
//! - two friends who book through one session, in one thread, where each call that runs out of memory is made again:
//!   once with their scripts submitted one by one, and once with a manager that is opened over them;
//! - the load of an ordinary service: eight sessions in threads, each of which submits 50 scripts while all work. Each
//!   call that runs out of memory is made again.
//!
//! With the word `limit` a client waits for 50 ms at most, whose time runs out. With the word `memory` it makes the first
//! run alone, and with `load [COUNT]` the second one, with so many scripts a session. `tools/check refusals --sessions` refuses the allocations of both in turn; of the second one, so, a call of
//! one session in the midst of the others'. Standard error says which call was made again in the first run, and how
//! many were in the second, if any was. If memory runs out outside the manager, while a text is read or a report is
//! made, the program ends with status 1 and writes nothing. Of the second run standard error also says how long it
//! took, and how long a submit waited at most.
#![tactic(auto)]

mod again;
mod client;
mod ledgers;
mod limit;
mod load;
mod refused;

use crate::again::Again;
use crate::ledgers::{Outcome, Task, run};
use crate::load::{Load, SESSIONS};
use crate::refused::Way;
use anyhow::{Context, Result, bail, ensure};
use ent_book::{NamedTable, write_report};
use ent_semantics::Book;
use ent_value::{Sequence, Watched};
use std::alloc::Global;
use std::env;
use std::sync::Wait;
use std::thread::Threads;
use std::time::Clock;

/// How many scripts each session submits where the command line doesn't say.
const FEW: usize = 50;

/// What is run.
#[derive(Clone, Copy, Debug, PartialEq, Eq)]
enum Wanted {
    All,
    Memory,
    Load,
    Limit,
}

impl Wanted {
    /// What the first word of the command line asks for.
    fn of(word: Option<&str>) -> Result<Self> {
        match word {
            None => Ok(Wanted::All),
            Some("memory") => Ok(Wanted::Memory),
            Some("load") => Ok(Wanted::Load),
            Some("limit") => Ok(Wanted::Limit),
            Some(_) => bail!("no word, memory, limit, or load [COUNT]"),
        }
    }
}

/// The friends' book. Where memory runs out when the manager is opened, all is made anew, by other ledgers.
fn book<R: Threads + Wait + Clock + Sync>(
    rt: &R,
    alloc: Global,
    again: &mut Again,
    way: Way,
) -> Result<Book<Sequence<NamedTable>>> {
    if let Outcome::Book(book) = run(rt, alloc, again, Task::Friends(way))? {
        return Ok(book);
    }
    match run(rt, alloc, again, Task::Friends(way))? {
        Outcome::Book(book) => Ok(book),
        _ => bail!("memory ran out twice"),
    }
}

/// The report of the friends' book.
fn report<R: Threads + Wait + Clock + Sync>(
    rt: &R,
    alloc: Global,
    again: &mut Again,
    way: Way,
) -> Result<Vec<u8>> {
    let book = book(rt, alloc, again, way)?;
    let mut writer = Watched::new(Vec::new(alloc));
    ensure!(
        write_report(alloc, &book, &mut writer).is_ok(),
        "the report can't be made"
    );
    let mut report = Vec::new(alloc);
    report.extend_from_slice(writer.get().as_slice())?;
    Ok(report)
}

/// Two friends through one session: both reports, which are the same.
fn reports<R: Threads + Wait + Clock + Sync>(
    rt: &R,
    alloc: Global,
    again: &mut Again,
) -> Result<String> {
    let mut out = report(rt, alloc, again, Way::Submitted).context("submitted one by one")?;
    let opened = report(rt, alloc, again, Way::Opened).context("opened over all")?;
    out.extend_from_slice(opened.as_slice())?;
    String::from_utf8(out).context("the reports aren't UTF-8")
}

/// The load of sessions that submit so many scripts each.
fn carried<R: Threads + Wait + Clock + Sync>(rt: &R, alloc: Global, count: usize) -> Result<Load> {
    let mut again = Again::default();
    match run(rt, alloc, &mut again, Task::Load(count))? {
        Outcome::Load(load) => Ok(load),
        _ => bail!("there is no load"),
    }
}

/// A client whose time runs out.
fn wait_in_vain<R: Threads + Wait + Clock + Sync>(rt: &R, alloc: Global) -> Result<()> {
    let mut again = Again::default();
    match run(rt, alloc, &mut again, Task::Limit)? {
        Outcome::NoFate => Ok(()),
        _ => bail!("there is a fate"),
    }
}

fn main(rt: HostRuntime) -> Result<()> {
    let alloc = rt.alloc();
    let mut words = env::args(&rt)?;
    let first = words.nth(1);
    let part = Wanted::of(first.as_ref().map(|it| it.as_str()))?;
    if part == Wanted::Limit {
        wait_in_vain(&rt, alloc)?;
        println!(rt; "no fate")?;
        return Ok(());
    }
    if part != Wanted::Load {
        let mut again = Again::default();
        let both = reports(&rt, alloc, &mut again)?;
        print!(rt; "{}", both.as_str())?;
        if let Some(call) = again.word() {
            eprintln!(rt; "made again: {call}")?;
        }
    }
    if part != Wanted::Memory {
        let count = match words.next() {
            Some(word) => word.parse::<usize>().context("that is no number")?,
            None => FEW,
        };
        let load = carried(&rt, alloc, count).context("the load isn't carried")?;
        println!(rt; "{SESSIONS} sessions, {} commits", load.commits)?;
        eprintln!(rt;
            "{} ms, longest wait of a submit {} us",
            load.took.as_millis(),
            load.tally.longest.as_micros()
        )?;
        if load.tally.again > 0 {
            eprintln!(rt; "calls made again: {}", load.tally.again)?;
        }
    }
    Ok(())
}
