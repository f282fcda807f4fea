//! What a caller of C may see of a room.
ghost use Rattle.std.specs.Prelude.{◌≡◌, MatchOption, option_map, pos, slice_get};
ghost use Rattle.ent_waiting.specs.Ended.{last_but};
ghost use Rattle.ent_c.specs.Looks.{TellsEnded, TellsState, TellsSubmission, TellsWaiting};
ghost use Rattle.ent_c.specs.Rooms.{InRoom};
ghost use Rattle.ent_room.specs.State.{submissions_of};

use crate::room_handle::RoomHandle;
use crate::ticket_state::{Submission, TicketState};
use crate::{DONE, MISUSED, REFUSED};
use ent_room::Room;
use ent_waiting::Ticket;
use std::alloc::Global;

/// Tells how a ticket stands.
#[unsafe(no_mangle)]
pub extern "C" fn ent_c_room_state(
    alloc: Global,
    handle: &mut RoomHandle,
    ticket: u64,
    state: &mut TicketState,
) -> i32
    ensures { InRoom handle.old.held handle.new.held result (state.new ≡ state.old)
        (λ room. TellsState ticket room state.new result) }
{
    let Some(room) = handle.take(alloc) else {
        return MISUSED;
    };
    *state = TicketState::of(room.state(Ticket::new(ticket)));
    handle.put(room);
    DONE
}

/// Tells a ticket, where there is one.
fn tell_ticket(found: Option<Ticket>, ticket: &mut u64) -> i32
    ensures { MatchOption found ((ticket.new ≡ ticket.old) × (result ≡ pos 1))
        (λ found. (ticket.new ≡ found) × (result ≡ pos 0)) }
{
    match found {
        Some(found) => {
            *ticket = found.number();
            DONE
        }
        None => REFUSED,
    }
}

/// Tells the first ticket from this one on under which a script waits.
#[unsafe(no_mangle)]
pub extern "C" fn ent_c_room_waiting(
    alloc: Global,
    handle: &mut RoomHandle,
    from: u64,
    ticket: &mut u64,
) -> i32
    ensures { InRoom handle.old.held handle.new.held result (ticket.new ≡ ticket.old)
        (λ room. TellsWaiting from room ticket.old ticket.new result) }
{
    let Some(room) = handle.take(alloc) else {
        return MISUSED;
    };
    let found = room.admission().list().next_waiter(Ticket::new(from));
    handle.put(room);
    tell_ticket(found, ticket)
}

/// An ended ticket, counted back from the last one, which is number 0; None if it isn't kept.
fn ended_back(room: &Room, back: u64) -> Option<Ticket>
    ensures { result ≡ option_map (λ one. one.ticket) (last_but back room.now.admission.list.ended) }
{
    match room.admission().list().ended_back(back as usize) {
        Some(ended) => Some(ended.ticket),
        None => None,
    }
}

/// Tells an ended ticket, counted back from the last one, which is number 0.
#[unsafe(no_mangle)]
pub extern "C" fn ent_c_room_ended(
    alloc: Global,
    handle: &mut RoomHandle,
    back: u64,
    ticket: &mut u64,
) -> i32
    ensures { InRoom handle.old.held handle.new.held result (ticket.new ≡ ticket.old)
        (λ room. TellsEnded back room ticket.old ticket.new result) }
{
    let Some(room) = handle.take(alloc) else {
        return MISUSED;
    };
    let found = ended_back(&room, back);
    handle.put(room);
    tell_ticket(found, ticket)
}

/// The transaction at this place of those that the script of a ticket became.
fn submission_at(room: &Room, ticket: u64, place: u64) -> Option<Submission>
    ensures { result ≡ option_map (λ one. record { epoch = one.epoch; tx = one.tx })
        (slice_get (submissions_of room.now.admission.list ticket) place) }
{
    match room.submissions(Ticket::new(ticket)).get(place as usize) {
        Some(one) => Some(Submission::of(*one)),
        None => None,
    }
}

/// Tells the transaction at this place of those that the script of a ticket became.
#[unsafe(no_mangle)]
pub extern "C" fn ent_c_room_submission(
    alloc: Global,
    handle: &mut RoomHandle,
    ticket: u64,
    place: u64,
    submission: &mut Submission,
) -> i32
    ensures { InRoom handle.old.held handle.new.held result (submission.new ≡ submission.old)
        (λ room. TellsSubmission ticket place room submission.old submission.new result) }
{
    let Some(room) = handle.take(alloc) else {
        return MISUSED;
    };
    let found = submission_at(&room, ticket, place);
    handle.put(room);
    match found {
        Some(one) => {
            *submission = one;
            DONE
        }
        None => REFUSED,
    }
}

/// Tells the number of the present epoch.
#[unsafe(no_mangle)]
pub extern "C" fn ent_c_room_epoch(alloc: Global, handle: &mut RoomHandle, epoch: &mut u64) -> i32
    ensures { InRoom handle.old.held handle.new.held result (epoch.new ≡ epoch.old)
        (λ room. (epoch.new ≡ room.admission.epoch.number) × (result ≡ pos 0)) }
{
    let Some(room) = handle.take(alloc) else {
        return MISUSED;
    };
    *epoch = room.admission().epoch().number();
    handle.put(room);
    DONE
}
