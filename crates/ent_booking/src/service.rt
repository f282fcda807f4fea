//! The service: a manager, its clients in threads, and a thread that starts and ends the runs.
ghost use Rattle.std.specs.Prelude.{◌≡◌};

use crate::client::{Client, leave, visit};
use crate::pace::{end_last_run, pace};
use crate::report::append_report;
use crate::roll::Roll;
use crate::text::{ANN, BOB, CLEO, DONALD, GOOFY, MICKEY, MINNIE, OPENING};
use anyhow::{Context, Result, ensure};
use ent_serve::{BlankLog, Blanks, Both, Manager, Naming, Open, Seats, Session};
use ent_sql::parse_input;
use std::alloc::{AllocError, Global};
use std::marker::Brand;
use std::sync::Wait;
use std::sync::atomic::{AtomicBool, Ordering};
use std::sync::ledger::Blank;
use std::thread;
use std::thread::Threads;
use std::time::{Clock, Duration};

/// The clients, after how many milliseconds each comes, and what each wants.
pub(crate) const CLIENTS: [(&str, u64, &str); 7] = [
    ("Mickey", 0, MICKEY),
    ("Ann", 5, ANN),
    ("Donald", 10, DONALD),
    ("Bob", 20, BOB),
    ("Goofy", 30, GOOFY),
    ("Minnie", 40, MINNIE),
    ("Cleo", 60, CLEO),
];

/// A client for each session.
fn seated<L: Naming>(alloc: Global, sessions: Vec<Session<L>>) -> Option<Vec<Client<L>>> {
    let mut clients = Vec::new(alloc);
    for (place, session) in sessions.into_iter().enumerate() {
        let (_, after, wish) = *CLIENTS.get(place)?;
        let script = parse_input(alloc, wish).ok()?.scripts.into_vec().pop()?;
        let after = Duration::from_millis(after);
        clients
            .push(Client {
                after,
                script,
                session,
            })
            .ok()?;
    }
    Some(clients)
}

/// How many threads there are: one for each client, and one that starts and ends the runs.
const THREADS: usize = 8;

/// All clients come, each in a thread of its own, and wait for their fates. When the last one goes the service closes.
fn serve<L: Naming + Send + Sync, R: Threads + Wait + Clock + Sync>(
    rt: &R,
    manager: &Manager<L, Open>,
    clients: Vec<Client<L>>,
    roll: &Roll,
    closed: &AtomicBool,
) -> Result<Vec<Session<L>>, AllocError> {
    let come = |client: Client<L>| -> Session<L> {
        if roll.call(rt) {
            visit(rt, manager, client)
        } else {
            leave(client)
        }
    };
    let sessions = thread::map_vec(rt, clients, &come);
    closed.store(true, Ordering::SeqCst);
    sessions
}

/// Seven clients come at different times, and wait for one another, while runs start and end by the clock. Then the
/// manager is closed: the report.
fn report_of<L: Naming + Send + Sync, R: Threads + Wait + Clock + Sync>(
    rt: &R,
    alloc: Global,
    blank: Blanks,
) -> Result<Vec<u8>>
    requires names { (blank.scripts.name ≡ L.Scripts.name) × (blank.entries.name ≡ L.Entries.name)
        × (blank.jobs ≡ L.Scripts.book) }
    requires blank { (blank.scripts.parts ≡ 7) × (blank.entries.parts ≡ 7) }
    requires scripts { (L.Scripts.seats ≡ 7) × (L.Scripts.parts ≡ 7) }
    requires entries { (L.Entries.seats ≡ 7) × (L.Entries.parts ≡ 7) }
{
    let input = parse_input(alloc, OPENING)
        .ok()
        .context("the opening can't be read")?;
    let opened = Manager::<L, Open>::open(alloc, blank, input, Open, 7).ok();
    let (manager, sessions) = opened.context("the manager can't be opened")?;
    let clients = seated(alloc, sessions).context("the clients' scripts can't be read")?;
    let (closed, roll) = (AtomicBool::new(false), Roll::new(THREADS));
    let (shared, mark, all) = (&manager, &closed, &roll);
    let (served, ()) = thread::join(
        rt,
        || serve(rt, shared, clients, all, mark),
        || {
            if all.call(rt) {
                pace(rt, shared, mark);
            }
        },
    );
    let sessions = served?;
    ensure!(!roll.has_failed(), "a thread can't be made");
    end_last_run(rt, shared);
    let (book, sessions) = manager
        .close(sessions)
        .ok()
        .context("the manager can't be closed")?;
    let mut out = Vec::new(alloc);
    append_report(alloc, &mut out, &book, sessions.as_slice())?;
    Ok(out)
}

fn report_by<S: Seats + Send + Sync, E: Seats + Send + Sync, R: Threads + Wait + Clock + Sync>(
    rt: &R,
    alloc: Global,
    blank: Blanks,
) -> Result<Vec<u8>>
    requires names { (blank.scripts.name ≡ S.name) × (blank.entries.name ≡ E.name) × (blank.jobs ≡ S.book) }
    requires blank { (blank.scripts.parts ≡ 7) × (blank.entries.parts ≡ 7) }
    requires scripts { (S.seats ≡ 7) × (S.parts ≡ 7) }
    requires entries { (E.seats ≡ 7) × (E.parts ≡ 7) }
{
    report_of::<Both<S, E>, R>(rt, alloc, blank)
}

/// What the service prints.
pub(crate) fn report<R: Threads + Wait + Clock + Sync>(rt: &R, alloc: Global) -> Result<Vec<u8>> {
    report_by::<Brand, Brand, R>(
        rt,
        alloc,
        Blanks {
            scripts: Blank::new(7),
            entries: Blank::new(7),
            jobs: BlankLog::new(),
        },
    )
}
