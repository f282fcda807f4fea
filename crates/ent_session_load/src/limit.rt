//! A client waits for 50 ms at most, also where memory runs out meanwhile and doesn't come back.
ghost use Rattle.std.specs.Prelude.{◌≡◌, ◌<◌, ◌≤◌};
ghost use Rattle.ent_serve.specs.declared.manager.TheConstants.{MOST_SESSIONS};

use anyhow::{Context, Result, ensure};
use ent_serve::{Blanks, Manager, Naming, Open};
use ent_sql::parse_input;
use std::alloc::Global;
use std::sync::Wait;
use std::time::{Clock, Duration};

/// A script whose friend never comes.
const INPUT: &str = "CREATE TABLE Flights (fno INT, dest TEXT);
INSERT INTO Flights VALUES (122, 'LA');
BEGIN TRANSACTION;
SELECT 'Donald', fno AS @f INTO ANSWER R
  WHERE fno IN (SELECT fno FROM Flights WHERE dest = 'LA') AND ('Daisy', fno) IN ANSWER R CHOOSE 1;
COMMIT;";

/// Opens a manager over the script, starts its run, and waits for its fate, which doesn't come.
pub(crate) fn wait_in_vain<L: Naming, R: Wait + Clock>(
    rt: &R,
    alloc: Global,
    blank: Blanks,
    sessions: usize,
) -> Result<()>
    requires nonempty { 0 < sessions }
    requires bound { sessions ≤ MOST_SESSIONS }
    requires names { (blank.scripts.name ≡ L.Scripts.name) × (blank.entries.name ≡ L.Entries.name)
        × (blank.jobs ≡ L.Scripts.book) }
    requires blank { (blank.scripts.parts ≡ sessions) × (blank.entries.parts ≡ sessions) }
    requires scripts { (L.Scripts.seats ≡ sessions) × (L.Scripts.parts ≡ sessions) }
    requires entries { (L.Entries.seats ≡ sessions) × (L.Entries.parts ≡ sessions) }
{
    let input = parse_input(alloc, INPUT)
        .ok()
        .context("the input can't be read")?;
    let opened = Manager::<L, Open>::open(alloc, blank, input, Open, sessions).ok();
    let (manager, mut seats) = opened.context("the manager can't be opened")?;
    let session = seats.first_mut().context("there is no session")?;
    manager.start_run(rt)?;
    let told = manager.wait_for_at_most(rt, session, 1, Duration::from_millis(50));
    ensure!(told.is_none(), "there is a fate");
    Ok(())
}
