//! One thread starts and ends its runs itself, asks what the journal has, and gives the sessions up.
use anyhow::{Context, Result, bail, ensure};
use ent_semantics::Fate;
use ent_serve::{CloseFault, Headway, Manager, Naming, NoBook, Open, Session};
use ent_sql::parse_input;
use ent_value::Refusal;
use std::alloc::Global;
use std::sync::Wait;

pub(crate) const OPENING: &str = "CREATE TABLE T (a INT);";

const SCRIPT: &str = "BEGIN TRANSACTION; INSERT INTO T VALUES (7); SELECT * FROM T; COMMIT;";

/// More turns than the script takes.
const MOST_TURNS: usize = 100;

/// Works in the run until nothing in it moves.
fn work_until_still<L: Naming, R: Wait>(
    rt: &R,
    manager: &Manager<L, Open>,
    session: &mut Session<L>,
) -> Result<()> {
    for _ in 0..MOST_TURNS {
        match manager.work_in_run(rt, session)? {
            Headway::Moved => {}
            Headway::Idle => return Ok(()),
            Headway::Done => bail!("the run ended by itself"),
        }
    }
    bail!("there are too many turns")
}

/// Submits one script.
fn submit<L: Naming, R: Wait>(
    rt: &R,
    alloc: Global,
    manager: &Manager<L, Open>,
    session: &mut Session<L>,
) -> Result<()> {
    let input = parse_input(alloc, SCRIPT)
        .ok()
        .context("the script can't be read")?;
    for script in input.scripts.into_vec() {
        manager
            .submit(rt, session, script)
            .ok()
            .context("the script isn't taken")?;
    }
    Ok(())
}

/// Makes a run for the first script.
fn run_one<L: Naming, R: Wait>(
    rt: &R,
    manager: &Manager<L, Open>,
    session: &mut Session<L>,
) -> Result<()> {
    let headway = manager.work_in_run(rt, session)?;
    ensure!(headway == Headway::Idle, "a run started by itself");
    ensure!(
        manager.end_run(rt)? == Headway::Idle,
        "a run ended before any was on"
    );
    ensure!(manager.start_run(rt)? == Headway::Moved, "no run started");
    ensure!(
        manager.start_run(rt)? == Headway::Idle,
        "a run started while one is on"
    );
    ensure!(
        manager.end_run(rt)? == Headway::Idle,
        "the run ended before its members"
    );
    let fate = manager.fate(rt, session, 1);
    ensure!(fate.is_none(), "there is a fate");
    work_until_still(rt, manager, session)?;
    let committed = Fate::Committed { number: 1, runs: 1 };
    let fate = manager.fate(rt, session, 1);
    ensure!(fate == Some(committed), "another fate");
    ensure!(manager.end_run(rt)? == Headway::Moved, "the run didn't end");
    ensure!(
        manager.end_run(rt)? == Headway::Done,
        "something is left to end"
    );
    Ok(())
}

/// What the journal has for the transaction, told without its session.
fn ask_for_receipts<L: Naming, R: Wait>(rt: &R, manager: &Manager<L, Open>) -> Result<()> {
    let told = manager.receipt_of(rt, 1)?.context("there is no receipt")?;
    ensure!(
        told.number == 1 && told.tx == 1 && told.runs == 1,
        "another receipt"
    );
    ensure!(told.answers.len() == 2, "other answers");
    ensure!(manager.receipt_of(rt, 2)?.is_none(), "a receipt of nobody");
    Ok(())
}

/// The manager of a refusal, which must be that something is left.
fn left_over<L: Naming>(refused: NoBook<L, Open>) -> Result<Manager<L, Open>> {
    let NoBook { manager, refusal } = refused;
    ensure!(
        refusal == Refusal::Fault(CloseFault::NotDone),
        "another refusal"
    );
    Ok(manager)
}

/// Makes a run for the first session's script, and has the second one's done once the first session is gone.
pub(crate) fn check<L: Naming, R: Wait>(
    rt: &R,
    alloc: Global,
    manager: Manager<L, Open>,
    mut sessions: Vec<Session<L>>,
) -> Result<()> {
    let mut second = sessions.pop().context("there is no second session")?;
    let first = sessions.first_mut().context("there is no first session")?;
    let headway = manager.work_in_run(rt, first)?;
    ensure!(headway == Headway::Done, "something is left");
    submit(rt, alloc, &manager, first)?;
    run_one(rt, &manager, first)?;
    ensure!(
        manager.start_run(rt)? == Headway::Done,
        "somebody waits for a run"
    );
    ask_for_receipts(rt, &manager)?;
    submit(rt, alloc, &manager, &mut second)?;
    drop(sessions);
    let manager = match manager.into_book() {
        Ok(_) => bail!("there is a book too early"),
        Err(refused) => left_over(refused)?,
    };
    for _ in 0..MOST_TURNS {
        if manager.work(rt, &mut second)? == Headway::Done {
            break;
        }
    }
    drop(second);
    let book = manager.into_book().ok().context("there is no book")?;
    ensure!(
        book.journal.len() == 2 && book.fates.len() == 2,
        "another book"
    );
    Ok(())
}
