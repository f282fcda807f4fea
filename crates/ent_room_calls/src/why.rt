//! How a ticket stands, in a line, with the demand of who is lonely.
ghost use Rattle.std.specs.Prelude.{◌≡◌, ◌++◌, ◌∷◌, [], IfErr, IfOk, OnOk, slice_get};
ghost use Rattle.std.specs.Option.{option_copied};
ghost use Rattle.ent_meetings.specs.Party.{party_of};
ghost use Rattle.ent_room.specs.State.{StandsAs};
ghost use Rattle.ent_room.specs.declared.state.State.{State as StateSeen};
ghost use Rattle.ent_room_calls.specs.State.{state_text};
ghost use Rattle.ent_room_calls.specs.Why.{demand_behind, waiting_text, why_text};
ghost use Rattle.ent_room_calls.specs.declared.fault.RoomFault.TheVariants.{Memory};
ghost use Rattle.ent_waiting.specs.WaitingList.{waiter_of};

use crate::fault::RoomFault;
use crate::state::state_text;
use ent_meetings::{Party, Pattern};
use ent_reasons::append_demand;
use ent_room::{Room, State};
use ent_tree::Script;
use ent_waiting::{Ticket, Waiter};
use std::alloc::{AllocError, Global};

/// A demand behind its number, where there is one.
fn append_demand_behind(
    alloc: Global,
    out: &mut Vec<u8>,
    demand: Option<&Pattern>,
) -> Result<(), AllocError>
    ensures { OnOk result (out.new.items ≡ out.old.items ++ demand_behind (option_copied demand.entry)) }
{
    match demand {
        Some(pattern) => {
            out.extend_from_slice(b", ")?;
            append_demand(alloc, out, &pattern.relation, pattern.terms.as_slice())
        }
        None => Ok(()),
    }
}

/// The demand of this number of a script, behind the number.
fn append_demand_of(
    alloc: Global,
    out: &mut Vec<u8>,
    script: &Script,
    demand: usize,
) -> Result<(), AllocError>
    ensures { OnOk result (out.new.items
        ≡ out.old.items ++ demand_behind (slice_get (party_of script.now).demands demand)) }
{
    let party = Party::of(alloc, script)?;
    let demanded = party.demands.as_slice().get(demand);
    append_demand_behind(alloc, out, demanded)?;
    Ok(())
}

/// How the ticket of a waiter stands.
fn waiting_text(alloc: Global, waiter: &Waiter, state: State) -> Result<Vec<u8>, RoomFault>
    ensures text { IfOk result (λ text. text.items ≡ waiting_text waiter.now state) }
    ensures refused { IfErr result (λ fault. fault ≡ Memory) }
{
    let mut text = state_text(alloc, state)?;
    if let State::Lonely { demand } = state {
        append_demand_of(alloc, &mut text, &waiter.script, demand)?;
    }
    Ok(text)
}

/// How a ticket stands, under which this script waits, if one does.
fn why_text(alloc: Global, waiter: Option<&Waiter>, state: State) -> Result<Vec<u8>, RoomFault>
    ensures text { IfOk result (λ text. text.items ≡ why_text (option_copied waiter.entry) state) }
    ensures refused { IfErr result (λ fault. fault ≡ Memory) }
{
    match waiter {
        Some(waiter) => waiting_text(alloc, waiter, state),
        None => state_text(alloc, state),
    }
}

/// A line, with its end, that says how a ticket stands; of one that is lonely it has the demand that nobody who waits
/// may offer.
pub fn why_line(alloc: Global, room: &Room, ticket: Ticket) -> Result<Vec<u8>, RoomFault>
    ensures line { IfOk result (λ line. (seen : StateSeen) × StandsAs room.now.admission ticket seen
        × (line.items ≡ why_text (waiter_of room.now.admission.list ticket) seen ++ 10 ∷ [])) }
    ensures refused { IfErr result (λ fault. fault ≡ Memory) }
{
    let state = room.state(ticket);
    let waiter = room.admission().list().waiter(ticket);
    let mut line = why_text(alloc, waiter, state)?;
    line.push(b'\n')?;
    Ok(line)
}
