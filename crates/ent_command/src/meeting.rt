//! Meetings of an input's scripts in a room, and a word of why some wait.
use crate::command::said;
use crate::ending::Ending;
use crate::running::explain;
use ent_book::append_number;
use ent_engine::read_whole;
use ent_fault_text::valid_text;
use ent_meet::{MeetFault, meet};
use ent_meetings::Party;
use ent_reasons::append_demand;
use ent_room::{Room, State};
use ent_tree::Script;
use ent_value::Watched;
use ent_waiting::Ticket;
use std::alloc::{AllocError, Global};
use std::io;
use std::io::Read;

/// Lets the scripts of standard input meet in a room, and writes what came of it. A fault is a line on standard error.
/// Where that is asked for, an explanation stands below it, or behind the report why scripts wait.
pub(crate) fn meet_input<R>(rt: &R, tries: u64, is_explained: bool) -> Ending
where
    R: AllocGlobal + Input + Print + Eprint,
{
    if is_explained {
        return meet_explained(rt, tries);
    }
    match meet_over(rt, rt.reader(), tries) {
        Ok(_room) => Ending::Done,
        Err(fault) => faulty(rt, fault),
    }
}

fn meet_over<R, I>(rt: &R, reader: I, tries: u64) -> Result<Room, MeetFault>
where
    R: AllocGlobal + Print,
    I: Read + Drop,
{
    let mut reader = Watched::new(reader);
    let mut writer = Watched::new(io::writer(rt));
    meet(rt.alloc(), &mut reader, &mut writer, tries)
}

/// Says the fault with which a meeting ends, in a line on standard error.
fn faulty<R: Eprint>(rt: &R, fault: MeetFault) -> Ending {
    match fault {
        MeetFault::Run(fault) => said(rt, Ending::Faulty(fault)),
        MeetFault::TooManyRows => {
            let _ = eprintln!(rt; "E407");
            Ending::Overfull
        }
    }
}

/// Reads all of standard input first, so that a fault of the input can be explained.
fn meet_explained<R>(rt: &R, tries: u64) -> Ending
where
    R: AllocGlobal + Input + Print + Eprint,
{
    let mut reader = Watched::new(rt.reader());
    let input = match read_whole(rt.alloc(), &mut reader) {
        Ok(input) => input,
        Err(fault) => return said(rt, Ending::Faulty(fault)),
    };
    match meet_over(rt, input.as_slice(), tries) {
        Ok(room) => {
            tell_waiting(rt, &room);
            Ending::Done
        }
        Err(fault) => {
            let ending = faulty(rt, fault);
            if let MeetFault::Run(fault) = fault {
                explain(rt, input.as_slice(), fault);
            }
            ending
        }
    }
}

/// Says of each who waits why. Where memory runs out for that, this is what is said.
fn tell_waiting<R: AllocGlobal + Eprint>(rt: &R, room: &Room) {
    let _ = match waiting_text(rt.alloc(), room) {
        Ok(text) => eprint!(rt; "{}", valid_text(text.as_slice())),
        Err(AllocError) => eprintln!(rt; "memory ran out for why scripts wait"),
    };
}

/// A line for each who waits, in order.
fn waiting_text(alloc: Global, room: &Room) -> Result<Vec<u8>, AllocError> {
    let mut text = Vec::new(alloc);
    let list = room.admission().list();
    for number in 1..list.next().number() {
        let ticket = Ticket::new(number);
        if let Some(waiter) = list.waiter(ticket) {
            text.extend_from_slice(b"tx ")?;
            append_number(alloc, &mut text, number)?;
            text.extend_from_slice(b" waits: ")?;
            append_why(alloc, &mut text, &waiter.script, room.state(ticket))?;
            text.extend_from_slice(b"\n")?;
        }
    }
    Ok(text)
}

/// Why a script waits that stands so.
fn append_why(
    alloc: Global,
    text: &mut Vec<u8>,
    script: &Script,
    state: State,
) -> Result<(), AllocError> {
    match state {
        State::Lonely { demand } => append_lonely(alloc, text, script, demand),
        State::NoMeeting => text.extend_from_slice(
            b"whoever may meet it needs others, and no meeting of them was found",
        ),
        _ => text.extend_from_slice(
            b"it was tried with those who may meet it, and the tables don't serve them together",
        ),
    }
}

/// That nobody offers a demand of a script.
fn append_lonely(
    alloc: Global,
    text: &mut Vec<u8>,
    script: &Script,
    demand: usize,
) -> Result<(), AllocError> {
    let party = Party::of(alloc, script)?;
    text.extend_from_slice(b"nobody offers ")?;
    match party.demands.as_slice().get(demand) {
        Some(pattern) => append_demand(alloc, text, &pattern.relation, pattern.terms.as_slice()),
        None => text.extend_from_slice(b"what it demands"),
    }
}
