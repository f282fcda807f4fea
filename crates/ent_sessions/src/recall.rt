//! A job that is held at the gate is called back, and another session does it.
ghost use Rattle.std.specs.Prelude.{◌≡◌, ◌<◌, ◌≤◌};
ghost use Rattle.ent_serve.specs.declared.manager.TheConstants.{MOST_SESSIONS};

use crate::gates::{Flags, HoldFirst};
use crate::ledgers::opened;
use anyhow::{Context, Result, ensure};
use ent_semantics::Fate;
use ent_serve::{Blanks, Headway, Manager, Naming, Session};
use std::alloc::{AllocError, Global};
use std::sync::Wait;
use std::thread;
use std::thread::Threads;

const INPUT: &str = "CREATE TABLE T (a INT);
BEGIN TRANSACTION; INSERT INTO T VALUES (7); COMMIT;";

/// Works until nothing is left, and then releases the job that is held. Where nothing moves while it is held, all jobs
/// are called back.
fn work_on<'a, L: Naming, R: Wait>(
    rt: &R,
    manager: &Manager<L, HoldFirst<'a>>,
    flags: &Flags,
    mut session: Session<L>,
) -> Session<L> {
    for _ in rt.forever() {
        match manager.work(rt, &mut session) {
            Ok(Headway::Done) => break,
            Ok(Headway::Idle) => {
                if flags.came() {
                    manager.recall(rt);
                }
                thread::yield_now();
            }
            Err(AllocError) => thread::yield_now(),
            Ok(Headway::Moved) => {}
        }
    }
    flags.release();
    session
}

/// Both work, and the job that is held is done by the other one.
pub(crate) fn check<L: Naming + Send + Sync, R: Threads + Wait + Sync>(
    rt: &R,
    alloc: Global,
    blank: Blanks,
    sessions: usize,
) -> Result<()>
    requires nonempty { 0 < sessions }
    requires bound { sessions ≤ MOST_SESSIONS }
    requires names { (blank.scripts.name ≡ L.Scripts.name) × (blank.entries.name ≡ L.Entries.name)
        × (blank.jobs ≡ L.Scripts.book) }
    requires blank { (blank.scripts.parts ≡ sessions) × (blank.entries.parts ≡ sessions) }
    requires scripts { (L.Scripts.seats ≡ sessions) × (L.Scripts.parts ≡ sessions) }
    requires entries { (L.Entries.seats ≡ sessions) × (L.Entries.parts ≡ sessions) }
{
    let flags = Flags::new();
    let lent = &flags;
    let gate = HoldFirst { flags: lent };
    let (manager, sessions) = opened::<L, HoldFirst>(alloc, blank, INPUT, gate, sessions)?;
    let shared = &manager;
    let work = |session: Session<L>| -> Session<L> { work_on(rt, shared, lent, session) };
    let sessions = thread::map_vec(rt, sessions, &work)?;
    ensure!(!flags.gave_up(), "the gate waited for nothing");
    let (book, _) = manager
        .close(sessions)
        .ok()
        .context("the manager can't be closed")?;
    let fates = book.fates.as_slice();
    let committed = Fate::Committed { number: 1, runs: 1 };
    ensure!(
        fates.len() == 1 && fates[0].fate == committed,
        "another fate"
    );
    Ok(())
}
