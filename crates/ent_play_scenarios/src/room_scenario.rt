//! A scenario of a room: an input, whose scripts are the first who wait, a line `== calls`, and a call a line. Behind the first
//! line, which opens the room, come rows that are given. Behind a line that puts a script come its bound values, each a
//! line, and its text, up to the line that ends it.
use crate::room_call::{Open, read_open};
use crate::room_stage::Stage;
use crate::rows::take_row;
use anyhow::{Context, Result, bail};
use ent_prepare::GivenRow;
use ent_room::{NotOpened, Room};
use ent_value::Refusal;
use ent_waiting::Ticket;
use std::alloc::Global;

/// The replies to the calls of a scenario, each a line or more.
pub(crate) fn replies(alloc: Global, input: &str, calls: &str) -> Result<String> {
    let (first, calls) = calls.split_once("\n").context("no call")?;
    let open = read_open(first)?;
    opened(alloc, input, open, calls)
}

/// Opens a room over an input and the rows that stand first among the calls, and makes the others; or why it isn't
/// opened.
fn opened(alloc: Global, input: &str, open: Open, calls: &str) -> Result<String> {
    let mut rows: Vec<GivenRow> = Vec::new(alloc);
    let mut taken = 0usize;
    for line in calls.lines() {
        if !take_row(alloc, &mut rows, line)? {
            break;
        }
        taken = taken.saturating_add(1);
    }
    let (text, given, next) = (input.as_bytes(), rows.as_slice(), Ticket::new(open.next));
    match Room::read(
        alloc,
        text,
        given,
        open.epoch,
        next,
        open.next_group,
        open.limits,
    ) {
        Ok(room) => played(alloc, room, calls, taken),
        Err(Refusal::Memory) => bail!("no memory"),
        Err(Refusal::Fault(fault)) => not_opened(alloc, fault),
    }
}

fn not_opened(alloc: Global, fault: NotOpened) -> Result<String> {
    Ok(match fault {
        NotOpened::Full => format!(in alloc; "full\n")?,
        NotOpened::Faulty(fault) => format!(in alloc; "{fault}\n")?,
        NotOpened::TooManyRows => format!(in alloc; "E407\n")?,
        NotOpened::NotARow(fault) => {
            format!(in alloc; "row {}: E{}\n", fault.place(), fault.code())?
        }
    })
}

/// Makes the calls behind so many lines.
fn played(alloc: Global, room: Room, calls: &str, taken: usize) -> Result<String> {
    let mut stage = Stage::new(alloc, room);
    stage.say("opened\n")?;
    for line in calls.lines().skip(taken) {
        stage.take(line)?;
    }
    Ok(stage.into_replies())
}
