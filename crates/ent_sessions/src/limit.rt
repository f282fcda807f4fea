//! A client waits for so long at most, and the time runs out: before a run is on, and in a run.
ghost use Rattle.std.specs.Prelude.{◌≡◌};

use crate::friends;
use anyhow::{Context, Result, ensure};
use ent_semantics::Fate;
use ent_serve::{Headway, Manager, Naming, Open, Session};
use ent_sql::parse_input;
use std::alloc::Global;
use std::sync::Wait;
use std::time::{Clock, Duration, Instant};

/// A script whose friend never comes.
const SCRIPT: &str = "BEGIN TRANSACTION WITHIN 1 RUNS;
SELECT 'Donald', fno AS @f INTO ANSWER R
  WHERE fno IN (SELECT fno FROM Flights WHERE dest = 'LA') AND ('Daisy', fno) IN ANSWER R CHOOSE 1;
COMMIT;
";

pub(crate) const OPENING: &str = friends::OPENING;

/// How many milliseconds the client waits at most.
const LIMIT: u64 = 50;

/// How many seconds no wait takes where nothing goes wrong.
const LONG: u64 = 20;

/// Submits the script.
fn submit<L: Naming, R: Wait>(
    rt: &R,
    alloc: Global,
    manager: &Manager<L, Open>,
    session: &mut Session<L>,
) -> Result<u64> {
    let input = parse_input(alloc, SCRIPT)
        .ok()
        .context("the script can't be read")?;
    let script = input
        .scripts
        .into_vec()
        .pop()
        .context("there is no script")?;
    let submitted = manager.submit(rt, session, script).ok();
    submitted.context("the script isn't taken")
}

/// Waits for a fate that doesn't come, until the time is over.
fn wait_in_vain<L: Naming, R: Wait + Clock>(
    rt: &R,
    manager: &Manager<L, Open>,
    session: &mut Session<L>,
    tx: u64,
) -> Result<()> {
    let limit = Duration::from_millis(LIMIT);
    let start = Instant::now(rt)?;
    let told = manager.wait_for_at_most(rt, session, tx, limit);
    let took = start.elapsed(rt)?;
    ensure!(told.is_none(), "there is a fate");
    ensure!(limit <= took, "the wait ends before its time");
    ensure!(
        took < Duration::from_secs(LONG),
        "the wait goes on beyond its time"
    );
    Ok(())
}

/// Waits before a run and in it, ends it, and is told the fate at once.
pub(crate) fn check<L: Naming, R: Wait + Clock>(
    rt: &R,
    alloc: Global,
    manager: Manager<L, Open>,
    mut sessions: Vec<Session<L>>,
) -> Result<()>
    requires { (L.Scripts.seats ≡ L.Scripts.parts) × (L.Entries.seats ≡ L.Entries.parts) }
{
    let session = sessions.first_mut().context("there is no session")?;
    let tx = submit(rt, alloc, &manager, session)?;
    wait_in_vain(rt, &manager, session, tx)?;
    ensure!(
        manager.start_run(rt)? == Headway::Moved,
        "no run is started"
    );
    wait_in_vain(rt, &manager, session, tx)?;
    ensure!(
        manager.end_run(rt)? == Headway::Moved,
        "the run isn't ended"
    );
    let told = manager.wait_for_at_most(rt, session, tx, Duration::from_secs(LONG));
    ensure!(told == Some(Fate::GaveUp { runs: 1 }), "another fate");
    let closed = manager.close(sessions).ok();
    let _book = closed.context("the manager can't be closed")?;
    Ok(())
}
