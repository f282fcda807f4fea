//! A manager is closed without one of its sessions, and before anything was done.
ghost use Rattle.std.specs.Prelude.{◌≡◌};

use anyhow::{Context, Result, bail, ensure};
use ent_serve::{CloseFault, Headway, Manager, Naming, Open, Session, UnclosedManager};
use ent_value::Refusal;
use std::sync::Wait;

pub(crate) const INPUT: &str = "CREATE TABLE T (a INT);
BEGIN TRANSACTION; INSERT INTO T VALUES (7); SELECT * FROM T; COMMIT;";

/// The refusal of a close that must be refused, with what came back.
fn refused<L: Naming>(
    closed: Result<(), UnclosedManager<L, Open>>,
    fault: CloseFault,
) -> Result<UnclosedManager<L, Open>> {
    match closed {
        Ok(()) => bail!("it was closed"),
        Err(not_closed) => {
            ensure!(
                not_closed.refusal == Refusal::Fault(fault),
                "another refusal"
            );
            Ok(not_closed)
        }
    }
}

/// Closes it without its second session, then before anything was done, and then at the end.
pub(crate) fn check<L: Naming, R: Wait>(
    rt: &R,
    manager: Manager<L, Open>,
    mut sessions: Vec<Session<L>>,
) -> Result<()>
    requires { (L.Scripts.seats ≡ L.Scripts.parts) × (L.Entries.seats ≡ L.Entries.parts) }
{
    let second = sessions.pop().context("there is no second session")?;
    let not_closed = refused(manager.close(sessions).map(|_| ()), CloseFault::SessionsOut)?;
    let UnclosedManager {
        manager,
        mut sessions,
        ..
    } = not_closed;
    ensure!(sessions.len() == 1, "the session didn't come back");
    sessions.push(second)?;
    for session in &sessions {
        ensure!(manager.fate(rt, session, 1).is_none(), "there is a fate");
    }
    let not_closed = refused(manager.close(sessions).map(|_| ()), CloseFault::NotDone)?;
    let UnclosedManager {
        manager,
        mut sessions,
        ..
    } = not_closed;
    let first = sessions
        .first_mut()
        .context("the sessions didn't come back")?;
    for _ in 0..100 {
        if manager.work(rt, first)? == Headway::Done {
            break;
        }
    }
    let (book, _) = manager
        .close(sessions)
        .ok()
        .context("the manager can't be closed")?;
    ensure!(book.journal.len() == 1, "another journal");
    Ok(())
}
