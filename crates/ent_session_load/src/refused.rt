//! Two friends who book through one session. Each call of the manager is made again where memory runs out.
ghost use Rattle.std.specs.Prelude.{◌≡◌, ◌<◌, ◌≤◌};
ghost use Rattle.ent_serve.specs.declared.manager.TheConstants.{MOST_SESSIONS};

use crate::again::{Again, Call};
use anyhow::{Context, Result, bail, ensure};
use ent_book::NamedTable;
use ent_semantics::Book;
use ent_serve::{Blanks, Headway, Manager, Naming, Open, Session, UnclosedManager};
use ent_sql::parse_input;
use ent_tree::{Input, Script};
use ent_value::{Limited, Refusal, Sequence};
use std::alloc::{AllocError, Global};
use std::sync::Wait;

const INPUT: &str = "CREATE TABLE Flights (fno INT, dest TEXT);
CREATE TABLE Bookings (who TEXT, fno INT);
INSERT INTO Flights VALUES (122, 'LA');
INSERT INTO Flights VALUES (123, 'LA');
INSERT INTO Flights VALUES (136, 'Paris');
BEGIN TRANSACTION;
SELECT 'Mickey', fno AS @f INTO ANSWER R
  WHERE fno IN (SELECT fno FROM Flights WHERE dest = 'LA') AND ('Minnie', fno) IN ANSWER R CHOOSE 1;
INSERT INTO Bookings VALUES ('Mickey', @f);
COMMIT;
BEGIN TRANSACTION;
SELECT 'Minnie', fno AS @f INTO ANSWER R
  WHERE fno IN (SELECT fno FROM Flights WHERE dest = 'LA') AND ('Mickey', fno) IN ANSWER R CHOOSE 1;
INSERT INTO Bookings VALUES ('Minnie', @f);
COMMIT;";

/// More turns than the scripts take.
const MOST_TURNS: usize = 1000;

/// How the scripts come to the manager.
#[derive(Clone, Copy, Debug, PartialEq, Eq)]
pub(crate) enum Way {
    /// One by one, to a manager that is opened over the opening alone.
    Submitted,
    /// With the opening.
    Opened,
}

/// The input that a manager is opened over, and the scripts that are submitted then.
fn parts(alloc: Global, way: Way) -> Result<(Input, Vec<Script>)> {
    let input = parse_input(alloc, INPUT)
        .ok()
        .context("the input can't be read")?;
    match way {
        Way::Opened => Ok((input, Vec::new(alloc))),
        Way::Submitted => {
            let Input { opening, scripts } = input;
            let scripts = scripts.into_vec();
            let input = Input {
                opening,
                scripts: Limited::new(alloc),
            };
            Ok((input, scripts))
        }
    }
}

fn submit<L: Naming, R: Wait>(
    rt: &R,
    manager: &Manager<L, Open>,
    session: &mut Session<L>,
    again: &mut Again,
    script: Script,
) -> Result<()> {
    let Err(refused) = manager.submit(rt, session, script) else {
        return Ok(());
    };
    ensure!(refused.refusal == Refusal::Memory, "a script isn't taken");
    again.note(Call::Submit)?;
    ensure!(
        manager.submit(rt, session, refused.script).is_ok(),
        "a script isn't taken when it is submitted again"
    );
    Ok(())
}

/// Works until nothing is left.
fn work_out<L: Naming, R: Wait>(
    rt: &R,
    manager: &Manager<L, Open>,
    session: &mut Session<L>,
    again: &mut Again,
) -> Result<()> {
    for _ in 0..MOST_TURNS {
        match manager.work(rt, session) {
            Ok(Headway::Done) => return Ok(()),
            Ok(Headway::Moved) => {}
            Ok(Headway::Idle) => bail!("nobody else has a job"),
            Err(AllocError) => again.note(Call::Work)?,
        }
    }
    bail!("there are too many turns")
}

fn close<L: Naming>(
    manager: Manager<L, Open>,
    sessions: Vec<Session<L>>,
    again: &mut Again,
) -> Result<Book<Sequence<NamedTable>>>
    requires { (L.Scripts.seats ≡ L.Scripts.parts) × (L.Entries.seats ≡ L.Entries.parts) }
{
    let refused = match manager.close(sessions) {
        Ok((book, _)) => return Ok(book),
        Err(refused) => refused,
    };
    let UnclosedManager {
        manager,
        sessions,
        refusal,
    } = refused;
    ensure!(refusal == Refusal::Memory, "the manager can't be closed");
    again.note(Call::Close)?;
    let closed = manager.close(sessions).ok();
    let (book, _) = closed.context("the manager can't be closed again")?;
    Ok(book)
}

/// The book; None where memory ran out when the manager was opened.
pub(crate) fn book_of<L: Naming, R: Wait>(
    rt: &R,
    alloc: Global,
    blank: Blanks,
    again: &mut Again,
    way: Way,
    sessions: usize,
) -> Result<Option<Book<Sequence<NamedTable>>>>
    requires nonempty { 0 < sessions }
    requires bound { sessions ≤ MOST_SESSIONS }
    requires names { (blank.scripts.name ≡ L.Scripts.name) × (blank.entries.name ≡ L.Entries.name)
        × (blank.jobs ≡ L.Scripts.book) }
    requires blank { (blank.scripts.parts ≡ sessions) × (blank.entries.parts ≡ sessions) }
    requires scripts { (L.Scripts.seats ≡ sessions) × (L.Scripts.parts ≡ sessions) }
    requires entries { (L.Entries.seats ≡ sessions) × (L.Entries.parts ≡ sessions) }
{
    let (input, scripts) = parts(alloc, way)?;
    let (manager, mut seats) = match Manager::<L, Open>::open(alloc, blank, input, Open, sessions) {
        Ok(opened) => opened,
        Err(Refusal::Memory) => {
            again.note(Call::Open)?;
            return Ok(None);
        }
        Err(Refusal::Fault(_)) => bail!("the input has a fault"),
    };
    let session = seats.first_mut().context("there is no session")?;
    for script in scripts {
        submit(rt, &manager, session, again, script)?;
    }
    work_out(rt, &manager, session, again)?;
    Ok(Some(close(manager, seats, again)?))
}
