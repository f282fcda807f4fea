//! A manager goes on where its book ends: what a friend doesn't get in the first epoch she gets in the second.
ghost use Rattle.std.specs.Prelude.{◌≡◌};

use anyhow::{Context, Result, bail, ensure};
use ent_semantics::Fate;
use ent_serve::{
    CloseFault, Headway, Manager, Naming, NotRenewed, Open, RenewFault, Renewed, Session,
};
use ent_sql::parse_input;
use ent_tree::Script;
use ent_value::Refusal;
use std::alloc::Global;
use std::sync::Wait;

pub(crate) const OPENING: &str = "CREATE TABLE Flights (fno INT, dest TEXT);
CREATE TABLE Bookings (who TEXT, fno INT);
";

const MINNIE: &str = "BEGIN TRANSACTION WITHIN 1 RUNS;
SELECT 'Minnie', fno AS @f INTO ANSWER R
  WHERE fno IN (SELECT fno FROM Flights WHERE dest = 'LA') AND ('Mickey', fno) IN ANSWER R CHOOSE 1;
INSERT INTO Bookings VALUES ('Minnie', @f);
COMMIT;
";

const MICKEY: &str = "BEGIN TRANSACTION WITHIN 1 RUNS;
SELECT 'Mickey', fno AS @f INTO ANSWER R
  WHERE fno IN (SELECT fno FROM Flights WHERE dest = 'LA') AND ('Minnie', fno) IN ANSWER R CHOOSE 1;
INSERT INTO Bookings VALUES ('Mickey', @f);
COMMIT;
";

/// A flight is offered, once Minnie has given up.
const CLERK: &str = "BEGIN TRANSACTION; INSERT INTO Flights VALUES (122, 'LA'); COMMIT;";

/// More turns than the scripts of an epoch take.
const MOST_TURNS: usize = 1000;

/// Submits the script of a text.
fn submit<L: Naming, R: Wait>(
    rt: &R,
    alloc: Global,
    manager: &Manager<L, Open>,
    session: &mut Session<L>,
    text: &str,
) -> Result<u64> {
    let mut scripts: Vec<Script> = parse_input(alloc, text)
        .ok()
        .context("the script can't be read")?
        .scripts
        .into_vec();
    let script = scripts.pop().context("there is no script")?;
    manager
        .submit(rt, session, script)
        .ok()
        .context("the script isn't taken")
}

/// Works until every transaction has its fate.
fn work_out<L: Naming, R: Wait>(
    rt: &R,
    manager: &Manager<L, Open>,
    session: &mut Session<L>,
) -> Result<()> {
    for _ in 0..MOST_TURNS {
        if manager.work(rt, session)? == Headway::Done {
            return Ok(());
        }
    }
    bail!("there are too many turns")
}

/// Whether a transaction has committed.
fn has_committed<L: Naming, R: Wait>(
    rt: &R,
    manager: &Manager<L, Open>,
    session: &Session<L>,
    tx: u64,
) -> bool {
    match manager.fate(rt, session, tx) {
        Some(Fate::Committed { .. }) => true,
        _ => false,
    }
}

/// The manager and the sessions of a renewal that must be refused, since somebody waits for a run.
fn refused<L: Naming>(
    renewed: Result<Renewed<L, Open>, NotRenewed<L, Open>>,
) -> Result<(Manager<L, Open>, Vec<Session<L>>)> {
    match renewed {
        Ok(_) => bail!("an epoch ended too early"),
        Err(refused) => {
            let NotRenewed {
                manager,
                sessions,
                refusal,
            } = refused;
            let fault = RenewFault::Close(CloseFault::NotDone);
            ensure!(refusal == Refusal::Fault(fault), "another refusal");
            Ok((manager, sessions))
        }
    }
}

/// The first epoch: Minnie's friend doesn't come, and a clerk offers a flight.
fn first_epoch<L: Naming, R: Wait>(
    rt: &R,
    alloc: Global,
    manager: Manager<L, Open>,
    mut sessions: Vec<Session<L>>,
) -> Result<Renewed<L, Open>>
    requires { (L.Scripts.seats ≡ L.Scripts.parts) × (L.Entries.seats ≡ L.Entries.parts) }
{
    let mut second = sessions.pop().context("there is no second session")?;
    let minnie = submit(rt, alloc, &manager, &mut second, MINNIE)?;
    let clerk = submit(rt, alloc, &manager, &mut second, CLERK)?;
    sessions.push(second)?;
    let (manager, mut sessions) = refused(manager.renew(sessions))?;
    let first = sessions.first_mut().context("no session came back")?;
    work_out(rt, &manager, first)?;
    let fate = manager.fate(rt, first, minnie);
    ensure!(fate == Some(Fate::GaveUp { runs: 1 }), "another fate");
    let offered = has_committed(rt, &manager, first, clerk);
    ensure!(offered, "no flight was offered");
    let renewed = manager.renew(sessions).ok();
    let renewed = renewed.context("the first epoch doesn't end")?;
    ensure!(renewed.book.journal.len() == 1, "another first journal");
    Ok(renewed)
}

/// The second epoch: both friends come, and take the flight that was offered in the first one.
fn second_epoch<L: Naming, R: Wait>(
    rt: &R,
    alloc: Global,
    manager: &Manager<L, Open>,
    sessions: &mut [Session<L>],
) -> Result<()> {
    for session in sessions.iter() {
        let nothing = session.tickets().is_empty() && session.receipts().is_empty();
        ensure!(nothing, "something went over");
    }
    let first = sessions.first_mut().context("there is no first session")?;
    let minnie = submit(rt, alloc, manager, first, MINNIE)?;
    let second = sessions.last_mut().context("there is no second session")?;
    let mickey = submit(rt, alloc, manager, second, MICKEY)?;
    ensure!(minnie == 1 && mickey == 2, "other numbers");
    work_out(rt, manager, second)?;
    let committed = has_committed(rt, manager, second, minnie);
    ensure!(committed, "Minnie hasn't got the flight");
    let committed = has_committed(rt, manager, second, mickey);
    ensure!(committed, "Mickey hasn't got the flight");
    Ok(())
}

/// Two epochs of one manager.
pub(crate) fn check<L: Naming, R: Wait>(
    rt: &R,
    alloc: Global,
    manager: Manager<L, Open>,
    sessions: Vec<Session<L>>,
) -> Result<()>
    requires { (L.Scripts.seats ≡ L.Scripts.parts) × (L.Entries.seats ≡ L.Entries.parts) }
{
    let Renewed {
        manager,
        mut sessions,
        ..
    } = first_epoch(rt, alloc, manager, sessions)?;
    second_epoch(rt, alloc, &manager, sessions.as_mut_slice())?;
    let (book, _) = manager
        .close(sessions)
        .ok()
        .context("the manager can't be closed")?;
    ensure!(book.opening.rows.len() == 1, "another opening");
    ensure!(book.journal.len() == 2, "another journal");
    Ok(())
}
