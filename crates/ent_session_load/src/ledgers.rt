//! What is done over a manager of its own, which two new ledgers name.
ghost use Rattle.std.specs.Prelude.{◌≡◌, ◌<◌, ◌≤◌};
ghost use Rattle.ent_serve.specs.declared.manager.TheConstants.{MOST_SESSIONS};

use crate::again::Again;
use crate::limit;
use crate::load::{self, Load, SESSIONS};
use crate::refused::{self, Way};
use anyhow::Result;
use ent_book::NamedTable;
use ent_semantics::Book;
use ent_serve::{BlankLog, Blanks, Both, Naming, Seats};
use ent_value::Sequence;
use std::alloc::Global;
use std::marker::Brand;
use std::sync::Wait;
use std::sync::ledger::Blank;
use std::thread::Threads;
use std::time::Clock;

/// What is done.
#[derive(Clone, Copy, Debug, PartialEq, Eq)]
pub(crate) enum Task {
    /// Two friends book through one session.
    Friends(Way),
    /// Sessions in threads submit so many scripts each.
    Load(usize),
    /// A client waits for 50 ms at most.
    Limit,
}

impl Task {
    /// How many sessions the manager has.
    fn sessions(self) -> usize
        ensures nonempty { 0 < result }
        ensures bound { result ≤ MOST_SESSIONS }
    {
        match self {
            Task::Friends(_) | Task::Limit => 1,
            Task::Load(_) => SESSIONS,
        }
    }
}

/// What it came to.
#[derive(Drop)]
pub(crate) enum Outcome {
    Book(Book<Sequence<NamedTable>>),
    /// Memory ran out when the manager was opened, and what was handed in is gone.
    NoManager,
    Load(Load),
    /// The time ran out.
    NoFate,
}

fn run_of<L: Naming + Send + Sync, R: Threads + Wait + Clock + Sync>(
    rt: &R,
    alloc: Global,
    blank: Blanks,
    again: &mut Again,
    task: Task,
    sessions: usize,
) -> Result<Outcome>
    requires nonempty { 0 < sessions }
    requires bound { sessions ≤ MOST_SESSIONS }
    requires names { (blank.scripts.name ≡ L.Scripts.name) × (blank.entries.name ≡ L.Entries.name)
        × (blank.jobs ≡ L.Scripts.book) }
    requires blank { (blank.scripts.parts ≡ sessions) × (blank.entries.parts ≡ sessions) }
    requires scripts { (L.Scripts.seats ≡ sessions) × (L.Scripts.parts ≡ sessions) }
    requires entries { (L.Entries.seats ≡ sessions) × (L.Entries.parts ≡ sessions) }
{
    match task {
        Task::Friends(way) => {
            match refused::book_of::<L, R>(rt, alloc, blank, again, way, sessions)? {
                Some(book) => Ok(Outcome::Book(book)),
                None => Ok(Outcome::NoManager),
            }
        }
        Task::Load(count) => {
            let load = load::carry::<L, R>(rt, alloc, blank, count, sessions)?;
            Ok(Outcome::Load(load))
        }
        Task::Limit => {
            limit::wait_in_vain::<L, R>(rt, alloc, blank, sessions)?;
            Ok(Outcome::NoFate)
        }
    }
}

fn run_by<S: Seats + Send + Sync, E: Seats + Send + Sync, R: Threads + Wait + Clock + Sync>(
    rt: &R,
    alloc: Global,
    blank: Blanks,
    again: &mut Again,
    task: Task,
    sessions: usize,
) -> Result<Outcome>
    requires nonempty { 0 < sessions }
    requires bound { sessions ≤ MOST_SESSIONS }
    requires names { (blank.scripts.name ≡ S.name) × (blank.entries.name ≡ E.name) × (blank.jobs ≡ S.book) }
    requires blank { (blank.scripts.parts ≡ sessions) × (blank.entries.parts ≡ sessions) }
    requires scripts { (S.seats ≡ sessions) × (S.parts ≡ sessions) }
    requires entries { (E.seats ≡ sessions) × (E.parts ≡ sessions) }
{
    run_of::<Both<S, E>, R>(rt, alloc, blank, again, task, sessions)
}

/// Does it over a manager that two new ledgers name, and notes which call was made again.
pub(crate) fn run<R: Threads + Wait + Clock + Sync>(
    rt: &R,
    alloc: Global,
    again: &mut Again,
    task: Task,
) -> Result<Outcome> {
    let sessions = task.sessions();
    run_by::<Brand, Brand, R>(
        rt,
        alloc,
        Blanks {
            scripts: Blank::new(sessions as u64),
            entries: Blank::new(sessions as u64),
            jobs: BlankLog::new(),
        },
        again,
        task,
        sessions,
    )
}
