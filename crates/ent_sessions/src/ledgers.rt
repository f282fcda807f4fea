//! The checks, each over a manager of its own, which two new ledgers name.
ghost use Rattle.std.specs.Prelude.{◌≡◌, ◌<◌, ◌≤◌};
ghost use Rattle.ent_serve.specs.declared.manager.TheConstants.{MOST_SESSIONS};

use crate::friends::Cast;
use crate::{close, friends, hold, limit, meet, paced, recall, renewal};
use anyhow::{Context, Result};
use ent_serve::{BlankLog, Blanks, Both, Gate, Manager, Naming, Open, Seats, Session};
use ent_sql::parse_input;
use std::alloc::Global;
use std::marker::Brand;
use std::sync::Wait;
use std::sync::ledger::Blank;
use std::thread::Threads;
use std::time::Clock;

/// What is checked.
#[derive(Clone, Copy, Debug, PartialEq, Eq)]
pub(crate) enum Check {
    Hold,
    Meet,
    Close,
    Recall,
    Paced,
    Friends,
    Lonely,
    Renewal,
    Limit,
}

impl Check {
    /// What it is called.
    pub(crate) fn name(self) -> &'static str {
        match self {
            Check::Hold => "one is held until the other has committed",
            Check::Meet => "two workers meet at the gate",
            Check::Close => "closed too early",
            Check::Recall => "a job is called back",
            Check::Paced => "runs that are started and ended",
            Check::Friends => "friends who come at different times",
            Check::Lonely => "who gives up together",
            Check::Renewal => "a second epoch",
            Check::Limit => "a wait whose time runs out",
        }
    }

    /// How many sessions its manager has.
    fn sessions(self) -> usize
        ensures nonempty { 0 < result }
        ensures bound { result ≤ MOST_SESSIONS }
    {
        match self {
            Check::Friends | Check::Lonely => 4,
            _ => 2,
        }
    }

    /// What its manager is opened over, where it isn't held at a gate.
    fn opening(self) -> &'static str {
        match self {
            Check::Friends | Check::Lonely => friends::OPENING,
            Check::Paced => paced::OPENING,
            Check::Renewal => renewal::OPENING,
            Check::Limit => limit::OPENING,
            _ => close::INPUT,
        }
    }
}

/// A manager over an input, with its sessions.
pub(crate) fn opened<L: Naming, G: Gate>(
    alloc: Global,
    blank: Blanks,
    text: &str,
    gate: G,
    sessions: usize,
) -> Result<(Manager<L, G>, Vec<Session<L>>)>
    requires nonempty { 0 < sessions }
    requires bound { sessions ≤ MOST_SESSIONS }
    requires names { (blank.scripts.name ≡ L.Scripts.name) × (blank.entries.name ≡ L.Entries.name)
        × (blank.jobs ≡ L.Scripts.book) }
    requires blank { (blank.scripts.parts ≡ sessions) × (blank.entries.parts ≡ sessions) }
    requires scripts { (L.Scripts.seats ≡ sessions) × (L.Scripts.parts ≡ sessions) }
    requires entries { (L.Entries.seats ≡ sessions) × (L.Entries.parts ≡ sessions) }
{
    let input = parse_input(alloc, text)
        .ok()
        .context("the input can't be read")?;
    let opened = Manager::<L, G>::open(alloc, blank, input, gate, sessions).ok();
    opened.context("the manager can't be opened")
}

/// A check whose manager holds no job at a gate.
fn run_open<L: Naming + Send + Sync, R: Threads + Wait + Clock + Sync>(
    rt: &R,
    alloc: Global,
    blank: Blanks,
    check: Check,
    sessions: usize,
) -> Result<()>
    requires nonempty { 0 < sessions }
    requires bound { sessions ≤ MOST_SESSIONS }
    requires names { (blank.scripts.name ≡ L.Scripts.name) × (blank.entries.name ≡ L.Entries.name)
        × (blank.jobs ≡ L.Scripts.book) }
    requires blank { (blank.scripts.parts ≡ sessions) × (blank.entries.parts ≡ sessions) }
    requires scripts { (L.Scripts.seats ≡ sessions) × (L.Scripts.parts ≡ sessions) }
    requires entries { (L.Entries.seats ≡ sessions) × (L.Entries.parts ≡ sessions) }
{
    let text = check.opening();
    let (manager, sessions) = opened::<L, Open>(alloc, blank, text, Open, sessions)?;
    match check {
        Check::Friends => friends::check(rt, alloc, manager, sessions, Cast::Friends),
        Check::Lonely => friends::check(rt, alloc, manager, sessions, Cast::Lonely),
        Check::Paced => paced::check(rt, alloc, manager, sessions),
        Check::Renewal => renewal::check(rt, alloc, manager, sessions),
        Check::Limit => limit::check(rt, alloc, manager, sessions),
        _ => close::check(rt, manager, sessions),
    }
}

fn run_of<L: Naming + Send + Sync, R: Threads + Wait + Clock + Sync>(
    rt: &R,
    alloc: Global,
    blank: Blanks,
    check: Check,
    sessions: usize,
) -> Result<()>
    requires nonempty { 0 < sessions }
    requires bound { sessions ≤ MOST_SESSIONS }
    requires names { (blank.scripts.name ≡ L.Scripts.name) × (blank.entries.name ≡ L.Entries.name)
        × (blank.jobs ≡ L.Scripts.book) }
    requires blank { (blank.scripts.parts ≡ sessions) × (blank.entries.parts ≡ sessions) }
    requires scripts { (L.Scripts.seats ≡ sessions) × (L.Scripts.parts ≡ sessions) }
    requires entries { (L.Entries.seats ≡ sessions) × (L.Entries.parts ≡ sessions) }
{
    match check {
        Check::Hold => hold::check::<L, R>(rt, alloc, blank, sessions),
        Check::Recall => recall::check::<L, R>(rt, alloc, blank, sessions),
        Check::Meet => meet::check(rt, alloc),
        _ => run_open::<L, R>(rt, alloc, blank, check, sessions),
    }
}

fn run_by<S: Seats + Send + Sync, E: Seats + Send + Sync, R: Threads + Wait + Clock + Sync>(
    rt: &R,
    alloc: Global,
    blank: Blanks,
    check: Check,
    sessions: usize,
) -> Result<()>
    requires nonempty { 0 < sessions }
    requires bound { sessions ≤ MOST_SESSIONS }
    requires names { (blank.scripts.name ≡ S.name) × (blank.entries.name ≡ E.name) × (blank.jobs ≡ S.book) }
    requires blank { (blank.scripts.parts ≡ sessions) × (blank.entries.parts ≡ sessions) }
    requires scripts { (S.seats ≡ sessions) × (S.parts ≡ sessions) }
    requires entries { (E.seats ≡ sessions) × (E.parts ≡ sessions) }
{
    run_of::<Both<S, E>, R>(rt, alloc, blank, check, sessions)
}

/// Makes a check, over a manager that two new ledgers name.
pub(crate) fn run<R: Threads + Wait + Clock + Sync>(
    rt: &R,
    alloc: Global,
    check: Check,
) -> Result<()> {
    let sessions = check.sessions();
    run_by::<Brand, Brand, R>(
        rt,
        alloc,
        Blanks {
            scripts: Blank::new(sessions as u64),
            entries: Blank::new(sessions as u64),
            jobs: BlankLog::new(),
        },
        check,
        sessions,
    )
}
