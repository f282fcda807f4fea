//! What is said of a script that isn't put into a room, or of the values that should be bound in it.
ghost use Rattle.std.specs.Prelude.{◌≡◌, IfErr, IfOk, IfSome, MatchOption, length, pos};
ghost use Rattle.ent_engine.specs.declared.fault.RunFault.TheVariants.{Input};
ghost use Rattle.ent_prepare.specs.Prepared.{IsFirstFault};
ghost use Rattle.ent_room.specs.Putting.{HasScript, tables_of};
ghost use Rattle.ent_room_calls.specs.Fault.{status as fault_status};
ghost use Rattle.ent_room_calls.specs.declared.fault.RoomFault.TheVariants.{Faulty, Memory};
ghost use Rattle.ent_c.specs.Explaining.{HandsNothing};
ghost use Rattle.ent_c.specs.Looks.{ExplainsPut, IsSaid};
ghost use Rattle.ent_c.specs.Rooms.{InRoom, TellsBeside, TellsRoom, bound_in};
ghost use Rattle.ent_c.specs.Text.{IsSaidOf, laid_over};

use crate::buffer::lay_over;
use crate::explanation::script_explanation_of;
use crate::room_handle::RoomHandle;
use crate::room_told::hand_out_of_room;
use crate::told::CallTold;
use crate::values_handle::ValuesHandle;
use crate::{DONE, MISUSED};
use ent_bound::BoundVariable;
use ent_input::InputFault;
use ent_prepare::PrepareFault;
use ent_room::Room;
use ent_room_calls::{RoomFault, binding_line};
use ent_tree::Opening;
use ent_value::Refusal;
use std::alloc::Global;

/// A fault for which a script isn't put, and what is said of it.
#[derive(Drop)]
struct SaidOfPut {
    fault: PrepareFault,
    text: Vec<u8>,
}

/// The declarations over which a room's epoch began.
fn opening_of(room: &Room) -> &Opening
    ensures { result.now ≡ room.now.admission.epoch.core.opening }
{
    room.admission().epoch().core().opening()
}

/// What is said of a fault of a script's text or of its form.
fn explained(
    alloc: Global,
    room: &Room,
    script: &[u8],
    fault: InputFault,
) -> Result<Vec<u8>, RoomFault>
    ensures said { IfOk result (λ text. IsSaidOf (Input fault) text.items) }
    ensures refused { IfErr result (λ fault. fault ≡ Memory) }
{
    let text = script_explanation_of(alloc, opening_of(room), script, fault)?;
    Ok(text.into_bytes())
}

/// What is said of a fault for which a script isn't put.
fn text_of(
    alloc: Global,
    room: &Room,
    script: &[u8],
    values: &[BoundVariable],
    fault: PrepareFault,
) -> Result<Vec<u8>, RoomFault>
    ensures said { IfOk result (λ text. IsSaid values.now fault text.items) }
    ensures refused { IfErr result (λ fault. fault ≡ Memory) }
{
    match fault {
        PrepareFault::Text(fault) => explained(alloc, room, script, fault),
        PrepareFault::Binding(fault) => binding_line(alloc, values, fault),
    }
}

/// What is said of the first fault for which a script wouldn't be put with these values; nothing where it would be.
fn said_in(
    alloc: Global,
    room: &mut Room,
    script: &[u8],
    values: &[BoundVariable],
) -> Result<Option<SaidOfPut>, RoomFault>
    ensures said { IfOk result (λ said. MatchOption said (HasScript room.old.admission script.now values.now)
        (λ said. IsFirstFault (tables_of room.old.admission) script.now values.now said.fault)) }
    ensures text { IfOk result (λ said. IfSome said (λ said. IsSaid values.now said.fault said.text.items)) }
    ensures refused { IfErr result (λ fault. fault ≡ Memory) }
    ensures same { room.new ≡ room.old }
{
    match room.examine(script, values) {
        Ok(()) => Ok(None),
        Err(Refusal::Memory) => Err(RoomFault::Memory),
        Err(Refusal::Fault(fault)) => {
            let text = text_of(alloc, room, script, values, fault)?;
            Ok(Some(SaidOfPut { fault, text }))
        }
    }
}

/// The same with the values behind a handle.
fn said_bound(
    alloc: Global,
    room: &mut Room,
    script: &[u8],
    values: &mut ValuesHandle,
) -> Result<Option<SaidOfPut>, RoomFault>
    ensures said { IfOk result (λ said. MatchOption said
        (HasScript room.old.admission script.now (bound_in values.old.held))
        (λ said. IsFirstFault (tables_of room.old.admission) script.now (bound_in values.old.held) said.fault)) }
    ensures text { IfOk result (λ said. IfSome said
        (λ said. IsSaid (bound_in values.old.held) said.fault said.text.items)) }
    ensures refused { IfErr result (λ fault. fault ≡ Memory) }
    ensures same { room.new ≡ room.old }
    ensures values { values.new.held ≡ values.old.held }
{
    match values.take(alloc) {
        Some(bound) => {
            let said = said_in(alloc, room, script, bound.as_slice());
            values.put(bound);
            said
        }
        None => said_in(alloc, room, script, &[]),
    }
}

/// Hands out what is said of a fault, if there is one, or tells why nothing is.
fn hand_out_said_of_put(
    said: Result<Option<SaidOfPut>, RoomFault>,
    script: &[u8],
    buffer: &mut [u8],
    told: &mut CallTold,
) -> i32
    ensures said { IfOk said (λ said. MatchOption said (HandsNothing buffer.old buffer.new told.new result)
        (λ said. (buffer.new ≡ laid_over buffer.old said.text.items)
        × TellsBeside (Faulty said.fault) script.now (length said.text.items) told.new
        × (result ≡ pos (fault_status (Faulty said.fault))))) }
    ensures refused { IfErr said (λ fault. (buffer.new ≡ buffer.old) × TellsRoom fault script.now told.new
        × (result ≡ pos (fault_status fault))) }
{
    match said {
        Ok(None) => {
            *told = CallTold::text(0);
            DONE
        }
        Ok(Some(SaidOfPut { fault, text })) => {
            let fault = RoomFault::Faulty(fault);
            *told = CallTold::room(script, fault, text.len());
            lay_over(text.as_slice(), buffer);
            fault.status() as i32
        }
        Err(fault) => hand_out_of_room(Err(fault), script, buffer, told),
    }
}

/// Hands out what is said of the first fault for which a script wouldn't be put into a room with these values.
#[unsafe(no_mangle)]
pub extern "C" fn ent_c_room_explain(
    alloc: Global,
    handle: &mut RoomHandle,
    script: &[u8],
    values: &mut ValuesHandle,
    buffer: &mut [u8],
    told: &mut CallTold,
) -> i32
    ensures text { InRoom handle.old.held handle.new.held result ((buffer.new ≡ buffer.old) × (told.new ≡ told.old))
        (λ room. ExplainsPut room script.now (bound_in values.old.held) buffer.old buffer.new told.new result) }
    ensures same { values.new.held ≡ values.old.held }
{
    let Some(mut room) = handle.take(alloc) else {
        return MISUSED;
    };
    let said = said_bound(alloc, &mut room, script, values);
    handle.put(room);
    hand_out_said_of_put(said, script, buffer, told)
}
