//! Clients come at different times and wait for their fates, while another thread starts and ends the runs: two friends
//! and somebody whose friend never comes; and three whose friends never come, who get their fates by one event.
ghost use Rattle.std.specs.Prelude.{◌≡◌};

use anyhow::{Context, Result, ensure};
use ent_semantics::Fate;
use ent_serve::{Core, Headway, Manager, Naming, Open, Session};
use ent_sql::parse_input;
use ent_tree::Script;
use std::alloc::Global;
use std::sync::Wait;
use std::thread;
use std::thread::Threads;
use std::time::{Clock, Duration, Instant};

pub(crate) const OPENING: &str = "CREATE TABLE Flights (fno INT, dest TEXT);
CREATE TABLE Bookings (who TEXT, fno INT);
INSERT INTO Flights VALUES (122, 'LA');
";

/// The two friends, and one whose friend never comes.
const SCRIPTS: &str = "BEGIN TRANSACTION WITHIN 1000 RUNS;
SELECT 'Mickey', fno AS @f INTO ANSWER R
  WHERE fno IN (SELECT fno FROM Flights WHERE dest = 'LA') AND ('Minnie', fno) IN ANSWER R CHOOSE 1;
INSERT INTO Bookings VALUES ('Mickey', @f);
COMMIT;
BEGIN TRANSACTION WITHIN 1000 RUNS;
SELECT 'Minnie', fno AS @f INTO ANSWER R
  WHERE fno IN (SELECT fno FROM Flights WHERE dest = 'LA') AND ('Mickey', fno) IN ANSWER R CHOOSE 1;
INSERT INTO Bookings VALUES ('Minnie', @f);
COMMIT;
BEGIN TRANSACTION WITHIN 2 RUNS;
SELECT 'Donald', fno AS @f INTO ANSWER R
  WHERE fno IN (SELECT fno FROM Flights WHERE dest = 'LA') AND ('Daisy', fno) IN ANSWER R CHOOSE 1;
COMMIT;
";

/// Three whose friends never come.
const LONELY: &str = "BEGIN TRANSACTION WITHIN 1 RUNS;
SELECT 'Donald', fno AS @f INTO ANSWER R
  WHERE fno IN (SELECT fno FROM Flights WHERE dest = 'LA') AND ('Daisy', fno) IN ANSWER R CHOOSE 1;
COMMIT;
BEGIN TRANSACTION WITHIN 1 RUNS;
SELECT 'Goofy', fno AS @f INTO ANSWER R
  WHERE fno IN (SELECT fno FROM Flights WHERE dest = 'LA') AND ('Clarabelle', fno) IN ANSWER R CHOOSE 1;
COMMIT;
BEGIN TRANSACTION WITHIN 1 RUNS;
SELECT 'Pluto', fno AS @f INTO ANSWER R
  WHERE fno IN (SELECT fno FROM Flights WHERE dest = 'LA') AND ('Fifi', fno) IN ANSWER R CHOOSE 1;
COMMIT;
";

/// How many milliseconds a run is left alone, so that all its clients sleep when it ends.
const LEFT_ALONE: u64 = 200;

/// How many seconds a client waits at most: longer than all of them do where nothing goes wrong.
const LONG: u64 = 20;

/// Whose scripts come.
#[derive(Clone, Copy, Debug, PartialEq, Eq)]
pub(crate) enum Cast {
    Friends,
    Lonely,
}

impl Cast {
    /// The three scripts.
    fn scripts(self) -> &'static str {
        match self {
            Cast::Friends => SCRIPTS,
            Cast::Lonely => LONELY,
        }
    }

    /// How many of them commit.
    fn commits(self) -> usize {
        match self {
            Cast::Friends => 2,
            Cast::Lonely => 0,
        }
    }
}

/// Who comes, with what is wanted.
#[derive(Drop)]
enum Part<L: Naming> {
    /// Comes as number so many, once as many others have, and waits for its fate.
    Client(usize, Script, Session<L>),
    /// Starts and ends runs.
    Pace(Session<L>),
}

/// A session, and what its client was told.
#[derive(Drop)]
struct ToldClient<L: Naming> {
    session: Session<L>,
    fate: Option<Fate>,
}

/// Waits, with no lock held, until so many scripts have come and been in a run.
fn await_others<L: Naming, R: Wait + Clock>(rt: &R, manager: &Manager<L, Open>, count: usize) {
    for _ in rt.forever() {
        let came = |core: &Core| -> bool { core.submitted() >= count };
        if manager.look(rt, came) {
            break;
        }
        thread::sleep(rt, Duration::from_millis(1));
    }
}

/// Comes, and waits for a fate.
fn come<L: Naming, R: Wait + Clock>(
    rt: &R,
    manager: &Manager<L, Open>,
    number: usize,
    script: Script,
    mut session: Session<L>,
) -> ToldClient<L> {
    await_others(rt, manager, number);
    thread::sleep(rt, Duration::from_millis(20));
    let fate = match manager.submit(rt, &mut session, script) {
        Ok(tx) if number == 0 => Some(manager.wait_for(rt, &mut session, tx)),
        Ok(tx) => manager.wait_for_at_most(rt, &mut session, tx, Duration::from_secs(LONG)),
        Err(_) => None,
    };
    ToldClient { session, fate }
}

/// Ends a run and starts the next one, each millisecond, until three scripts came and every transaction has its fate.
fn pace<L: Naming, R: Wait + Clock>(
    rt: &R,
    manager: &Manager<L, Open>,
    session: Session<L>,
) -> ToldClient<L> {
    for _ in rt.forever() {
        let came = |core: &Core| -> bool { core.submitted() >= 3 };
        let ended = manager.end_run(rt);
        let started = manager.start_run(rt);
        if ended.is_ok() && started == Ok(Headway::Done) && manager.look(rt, came) {
            break;
        }
        thread::sleep(rt, Duration::from_millis(1));
    }
    ToldClient {
        session,
        fate: None,
    }
}

/// Makes one run, once all three have come, and leaves it alone before it ends.
fn pace_once<L: Naming, R: Wait + Clock>(
    rt: &R,
    manager: &Manager<L, Open>,
    session: Session<L>,
) -> ToldClient<L> {
    await_others(rt, manager, 3);
    for _ in rt.forever() {
        let started = manager.start_run(rt);
        thread::sleep(rt, Duration::from_millis(LEFT_ALONE));
        if started.is_ok() && manager.end_run(rt) == Ok(Headway::Moved) {
            break;
        }
    }
    ToldClient {
        session,
        fate: None,
    }
}

/// A part for each session.
fn seated<L: Naming>(alloc: Global, sessions: Vec<Session<L>>, cast: Cast) -> Result<Vec<Part<L>>> {
    let input = parse_input(alloc, cast.scripts()).ok();
    let mut scripts = input
        .context("the scripts can't be read")?
        .scripts
        .into_vec();
    let mut parts = Vec::new(alloc);
    for (number, session) in sessions.into_iter().enumerate() {
        if scripts.is_empty() {
            parts.push(Part::Pace(session))?;
        } else {
            parts.push(Part::Client(number, scripts.remove(0), session))?;
        }
    }
    Ok(parts)
}

/// Whether a fate is a commit.
fn has_committed(fate: Option<Fate>) -> bool {
    match fate {
        Some(Fate::Committed { .. }) => true,
        _ => false,
    }
}

/// The friends have committed, and the third one has given up.
fn are_told(fates: &[Option<Fate>]) -> Result<()> {
    ensure!(fates.len() == 4, "not all came back");
    ensure!(has_committed(fates[0]), "the first friend hasn't committed");
    ensure!(
        has_committed(fates[1]),
        "the second friend hasn't committed"
    );
    ensure!(
        fates[2] == Some(Fate::GaveUp { runs: 2 }),
        "the third has another fate"
    );
    Ok(())
}

/// All three have given up after their run, and were told so.
fn are_told_together(fates: &[Option<Fate>]) -> Result<()> {
    ensure!(fates.len() == 4, "not all came back");
    for fate in &fates[..3] {
        ensure!(
            *fate == Some(Fate::GaveUp { runs: 1 }),
            "one isn't told that the run gave up"
        );
    }
    Ok(())
}

/// The fates that the clients are told; none of the session that paces the runs, which comes last.
fn told<L: Naming + Send + Sync, R: Threads + Wait + Clock + Sync>(
    rt: &R,
    alloc: Global,
    manager: Manager<L, Open>,
    sessions: Vec<Session<L>>,
    cast: Cast,
) -> Result<Vec<Option<Fate>>>
    requires { (L.Scripts.seats ≡ L.Scripts.parts) × (L.Entries.seats ≡ L.Entries.parts) }
{
    let parts = seated(alloc, sessions, cast)?;
    let shared = &manager;
    let act = |part: Part<L>| -> ToldClient<L> {
        match part {
            Part::Client(number, script, session) => come(rt, shared, number, script, session),
            Part::Pace(session) => match cast {
                Cast::Friends => pace(rt, shared, session),
                Cast::Lonely => pace_once(rt, shared, session),
            },
        }
    };
    let told = thread::map_vec(rt, parts, &act)?;
    let mut fates = Vec::new(alloc);
    let mut sessions = Vec::new(alloc);
    for one in told {
        fates.push(one.fate)?;
        sessions.push(one.session)?;
    }
    let (book, _) = manager
        .close(sessions)
        .ok()
        .context("the manager can't be closed")?;
    ensure!(book.journal.len() == cast.commits(), "another journal");
    Ok(fates)
}

/// Has these clients come, and looks at what they are told.
pub(crate) fn check<L: Naming + Send + Sync, R: Threads + Wait + Clock + Sync>(
    rt: &R,
    alloc: Global,
    manager: Manager<L, Open>,
    sessions: Vec<Session<L>>,
    cast: Cast,
) -> Result<()>
    requires { (L.Scripts.seats ≡ L.Scripts.parts) × (L.Entries.seats ≡ L.Entries.parts) }
{
    let start = Instant::now(rt)?;
    let fates = told(rt, alloc, manager, sessions, cast)?;
    let took = start.elapsed(rt)?;
    match cast {
        Cast::Friends => are_told(fates.as_slice()),
        Cast::Lonely => {
            ensure!(
                took < Duration::from_secs(LONG),
                "one isn't woken at the end of the run"
            );
            are_told_together(fates.as_slice())
        }
    }
}
