//! How a room refuses a call, as C is told it.
ghost use Rattle.std.specs.Prelude.{◌≡◌, IfErr, IfOk, OnOk, pos};
ghost use Rattle.ent_c.specs.Calls.{HandsOut};
ghost use Rattle.ent_c.specs.Rooms.{TellsBeside, TellsDone, TellsNumber, TellsRoom};
ghost use Rattle.ent_c.specs.Told.{told_of_text};
ghost use Rattle.ent_room_calls.specs.Fault.{status as fault_status};

use crate::DONE;
use crate::buffer::lay_over;
use crate::told::CallTold;
use ent_room_calls::RoomFault;

impl CallTold {
    /// What is told of a call that a room refuses, of bytes that were handed in: where the fault stands there, or
    /// which variable or which row it is of; beside a text of so many bytes.
    pub(crate) fn room(given: &[u8], fault: RoomFault, needed: usize) -> Self
        ensures { TellsBeside fault given.now needed result }
    {
        match fault.item() {
            Some(item) => CallTold {
                offset: item,
                code: fault.code(),
                ..CallTold::text(needed)
            },
            None => CallTold::coded(given, fault.code(), fault.place(), needed),
        }
    }
}

/// Tells that a room refuses a call: by a number of its own.
pub(crate) fn refuse(fault: RoomFault, refusal: &mut u32) -> i32
    ensures { TellsNumber fault refusal.new result }
{
    *refusal = fault.number();
    fault.status() as i32
}

/// The same, and where the fault stands in bytes that were handed in.
pub(crate) fn refuse_of(
    fault: RoomFault,
    given: &[u8],
    refusal: &mut u32,
    told: &mut CallTold,
) -> i32
    ensures number { TellsNumber fault refusal.new result }
    ensures told { TellsRoom fault given.now told.new }
{
    *told = CallTold::room(given, fault, 0);
    refuse(fault, refusal)
}

/// Tells whether a call was done.
pub(crate) fn tell(done: Result<(), RoomFault>, refusal: &mut u32) -> i32
    ensures ok { OnOk done (TellsDone refusal.new result) }
    ensures refused { IfErr done (λ fault. TellsNumber fault refusal.new result) }
{
    match done {
        Ok(()) => {
            *refusal = 0;
            DONE
        }
        Err(fault) => refuse(fault, refusal),
    }
}

/// The same, and where a fault stands in bytes that were handed in.
pub(crate) fn tell_of(
    done: Result<(), RoomFault>,
    given: &[u8],
    refusal: &mut u32,
    told: &mut CallTold,
) -> i32
    ensures ok { OnOk done (TellsDone refusal.new result) }
    ensures no_fault { OnOk done (told.new ≡ told_of_text 0) }
    ensures refused { IfErr done (λ fault. TellsNumber fault refusal.new result) }
    ensures told { IfErr done (λ fault. TellsRoom fault given.now told.new) }
{
    match done {
        Ok(()) => {
            *refusal = 0;
            *told = CallTold::text(0);
            DONE
        }
        Err(fault) => refuse_of(fault, given, refusal, told),
    }
}

/// Hands a text out, or tells why there is none, of the bytes that were handed in.
pub(crate) fn hand_out_of_room(
    text: Result<Vec<u8>, RoomFault>,
    given: &[u8],
    buffer: &mut [u8],
    told: &mut CallTold,
) -> i32
    ensures handed { IfOk text (λ text. HandsOut text.items buffer.old buffer.new told.new × (result ≡ pos 0)) }
    ensures refused { IfErr text (λ fault. (buffer.new ≡ buffer.old) × TellsRoom fault given.now told.new
        × (result ≡ pos (fault_status fault))) }
{
    match text {
        Ok(text) => {
            *told = CallTold::text(text.len());
            lay_over(text.as_slice(), buffer);
            DONE
        }
        Err(fault) => {
            *told = CallTold::room(given, fault, 0);
            fault.status() as i32
        }
    }
}
