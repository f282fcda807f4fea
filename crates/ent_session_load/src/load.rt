//! The load: a manager, and its clients in threads.
ghost use Rattle.std.specs.Prelude.{◌≡◌, ◌<◌, ◌≤◌};
ghost use Rattle.ent_serve.specs.declared.manager.TheConstants.{MOST_SESSIONS};

use crate::client::{Client, Tally, serve};
use anyhow::{Context, Result};
use ent_serve::{Blanks, Manager, Naming, Open, Session};
use ent_sql::parse_input;
use ent_tree::Script;
use std::alloc::Global;
use std::sync::Wait;
use std::thread;
use std::thread::Threads;
use std::time::{Clock, Duration, Instant};

pub(crate) const SESSIONS: usize = 8;

const OPENING: &str = "CREATE TABLE Stock (item INT, pieces INT);
CREATE TABLE Orders (client INT, item INT);
INSERT INTO Stock VALUES (1, 100);
INSERT INTO Stock VALUES (2, 200);
";

/// What a load came to.
#[derive(Clone, Copy, Debug)]
pub(crate) struct Load {
    pub(crate) commits: usize,
    pub(crate) took: Duration,
    pub(crate) tally: Tally,
}

/// So many scripts of one client: each looks at the stock, and orders an item.
fn scripts_of(alloc: Global, client: usize, count: usize) -> Result<Vec<Script>> {
    let mut scripts = Vec::new(alloc);
    for item in 0..count {
        let text = format!(in alloc;
            "BEGIN TRANSACTION; SELECT pieces FROM Stock; INSERT INTO Orders VALUES ({client}, {item}); COMMIT;"
        )?;
        let input = parse_input(alloc, text.as_str()).ok();
        for script in input.context("a script can't be read")?.scripts.into_vec() {
            scripts.push(script)?;
        }
    }
    Ok(scripts)
}

/// A client for each session, each with so many scripts.
fn seated<L: Naming>(
    alloc: Global,
    sessions: Vec<Session<L>>,
    count: usize,
) -> Result<Vec<Client<L>>> {
    let mut clients = Vec::new(alloc);
    for (number, session) in sessions.into_iter().enumerate() {
        clients.push(Client {
            session,
            scripts: scripts_of(alloc, number, count)?,
            tally: Tally::new(),
        })?;
    }
    Ok(clients)
}

/// Carries the load of sessions that submit so many scripts each.
pub(crate) fn carry<L: Naming + Send + Sync, R: Threads + Wait + Clock + Sync>(
    rt: &R,
    alloc: Global,
    blank: Blanks,
    count: usize,
    sessions: usize,
) -> Result<Load>
    requires nonempty { 0 < sessions }
    requires bound { sessions ≤ MOST_SESSIONS }
    requires names { (blank.scripts.name ≡ L.Scripts.name) × (blank.entries.name ≡ L.Entries.name)
        × (blank.jobs ≡ L.Scripts.book) }
    requires blank { (blank.scripts.parts ≡ sessions) × (blank.entries.parts ≡ sessions) }
    requires scripts { (L.Scripts.seats ≡ sessions) × (L.Scripts.parts ≡ sessions) }
    requires entries { (L.Entries.seats ≡ sessions) × (L.Entries.parts ≡ sessions) }
{
    let input = parse_input(alloc, OPENING).ok();
    let input = input.context("the opening can't be read")?;
    let opened = Manager::<L, Open>::open(alloc, blank, input, Open, sessions).ok();
    let (manager, seats) = opened.context("the manager can't be opened")?;
    let clients = seated(alloc, seats, count)?;
    let shared = &manager;
    let work = |client: Client<L>| -> Client<L> { serve(rt, shared, client) };
    let start = Instant::now(rt)?;
    let clients = thread::map_vec(rt, clients, &work)?;
    let took = start.elapsed(rt)?;
    let mut tally = Tally::new();
    let mut seats = Vec::new(alloc);
    for client in clients {
        tally.add(client.tally);
        seats.push(client.session)?;
    }
    let (book, _) = manager
        .close(seats)
        .ok()
        .context("the manager can't be closed")?;
    Ok(Load {
        commits: book.journal.len(),
        took,
        tally,
    })
}
