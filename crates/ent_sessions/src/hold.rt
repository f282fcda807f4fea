//! A reader of one table is held at the gate until a writer of another has committed.
ghost use Rattle.std.specs.Prelude.{◌≡◌, ◌<◌, ◌≤◌};
ghost use Rattle.ent_serve.specs.declared.manager.TheConstants.{MOST_SESSIONS};

use crate::gates::{Flags, Hold};
use crate::ledgers::opened;
use anyhow::{Context, Result, ensure};
use ent_semantics::Fate;
use ent_serve::{Blanks, Core, Headway, Manager, Naming, Session};
use ent_sql::parse_input;
use std::alloc::{AllocError, Global};
use std::sync::Wait;
use std::thread;
use std::thread::Threads;

const OPENING: &str = "CREATE TABLE A (x INT); CREATE TABLE B (x INT); INSERT INTO A VALUES (1);";

const SCRIPTS: &str = "BEGIN TRANSACTION; SELECT * FROM A; COMMIT;
BEGIN TRANSACTION; INSERT INTO B VALUES (7); COMMIT;";

/// Works until nothing is left, and releases the first transaction once the session has the second one's receipt.
fn work_on<'a, L: Naming, R: Wait>(
    rt: &R,
    manager: &Manager<L, Hold<'a>>,
    flags: &Flags,
    mut session: Session<L>,
) -> Session<L> {
    for _ in rt.forever() {
        match manager.work(rt, &mut session) {
            Ok(Headway::Done) => break,
            Ok(Headway::Idle) | Err(AllocError) => thread::yield_now(),
            Ok(Headway::Moved) => {}
        }
        if session.fate(2).is_some() {
            flags.release();
        }
    }
    session
}

/// Whether both fates are told to a session as they are.
fn are_told<'a, L: Naming, R: Wait>(
    rt: &R,
    manager: &Manager<L, Hold<'a>>,
    session: &Session<L>,
) -> bool {
    manager.fate(rt, session, 1) == Some(Fate::Committed { number: 2, runs: 1 })
        && manager.fate(rt, session, 2) == Some(Fate::Committed { number: 1, runs: 1 })
}

/// Submits both scripts by the first session.
fn submit_both<'a, L: Naming, R: Wait>(
    rt: &R,
    alloc: Global,
    manager: &Manager<L, Hold<'a>>,
    session: &mut Session<L>,
) -> Result<()> {
    let input = parse_input(alloc, SCRIPTS)
        .ok()
        .context("the scripts can't be read")?;
    for script in input.scripts.into_vec() {
        manager
            .submit(rt, session, script)
            .ok()
            .context("a script isn't taken")?;
    }
    Ok(())
}

/// Both work, and the first one's job is held until the second one has committed.
pub(crate) fn check<L: Naming + Send + Sync, R: Threads + Wait + Sync>(
    rt: &R,
    alloc: Global,
    blank: Blanks,
    sessions: usize,
) -> Result<()>
    requires nonempty { 0 < sessions }
    requires bound { sessions ≤ MOST_SESSIONS }
    requires names { (blank.scripts.name ≡ L.Scripts.name) × (blank.entries.name ≡ L.Entries.name)
        × (blank.jobs ≡ L.Scripts.book) }
    requires blank { (blank.scripts.parts ≡ sessions) × (blank.entries.parts ≡ sessions) }
    requires scripts { (L.Scripts.seats ≡ sessions) × (L.Scripts.parts ≡ sessions) }
    requires entries { (L.Entries.seats ≡ sessions) × (L.Entries.parts ≡ sessions) }
{
    let flags = Flags::new();
    let lent = &flags;
    let gate = Hold { flags: lent };
    let (manager, mut sessions) = opened::<L, Hold>(alloc, blank, OPENING, gate, sessions)?;
    if let Some(first) = sessions.first_mut() {
        submit_both(rt, alloc, &manager, first)?;
    }
    let shared = &manager;
    let work = |session: Session<L>| -> Session<L> { work_on(rt, shared, lent, session) };
    let sessions = thread::map_vec(rt, sessions, &work)?;
    ensure!(!flags.gave_up(), "the gate waited for nothing");
    for session in &sessions {
        ensure!(are_told(rt, &manager, session), "a fate is another");
    }
    let length_of = |core: &Core| -> usize { core.journal().len() };
    ensure!(
        manager.look(rt, length_of) == 2,
        "a look tells another journal"
    );
    let (book, _) = manager
        .close(sessions)
        .ok()
        .context("the manager can't be closed")?;
    let journal = book.journal.as_slice();
    ensure!(
        journal.len() == 2 && journal[0].tx == 2 && journal[1].tx == 1,
        "another journal"
    );
    Ok(())
}
