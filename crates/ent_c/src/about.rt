//! What the library is: its version, and the sizes of the structs that it shares with C.
ghost use Rattle.std.specs.Prelude.{◌≡◌, pos};
ghost use Rattle.ent_c.specs.Calls.{HandsOut};

use crate::DONE;
use crate::buffer::lay_over;
use crate::position::Position;
use crate::room::Limits;
use crate::ticket_state::{Submission, TicketState};
use crate::told::CallTold;
use ent_engine::VERSION;

/// How many bytes a `struct entangle_told` has.
const TOLD_BYTES: usize = size_of::<CallTold>();

/// How many bytes a `struct entangle_position` has.
const POSITION_BYTES: usize = size_of::<Position>();

/// How many bytes a `struct entangle_limits` has.
const LIMITS_BYTES: usize = size_of::<Limits>();

/// How many bytes a `struct entangle_ticket_state` has.
const TICKET_STATE_BYTES: usize = size_of::<TicketState>();

/// How many bytes a `struct entangle_submission` has.
const SUBMISSION_BYTES: usize = size_of::<Submission>();

/// Hands out the version, as `entangle --version` prints it behind the program's name, without the end of its line.
#[unsafe(no_mangle)]
pub extern "C" fn ent_c_version(buffer: &mut [u8], told: &mut CallTold) -> i32
    ensures text { HandsOut VERSION.now buffer.old buffer.new told.new }
    ensures status { result ≡ pos 0 }
{
    *told = CallTold::text(VERSION.len());
    lay_over(VERSION.as_bytes(), buffer);
    DONE
}

/// How many bytes the library writes of what is told, so that a caller can tell whether its own struct is this one.
#[unsafe(no_mangle)]
pub extern "C" fn ent_c_size_of_told() -> usize
    ensures { result ≡ TOLD_BYTES }
{
    TOLD_BYTES
}

/// The same of where a transaction stands.
#[unsafe(no_mangle)]
pub extern "C" fn ent_c_size_of_position() -> usize
    ensures { result ≡ POSITION_BYTES }
{
    POSITION_BYTES
}

/// The same of the limits of a room.
#[unsafe(no_mangle)]
pub extern "C" fn ent_c_size_of_limits() -> usize
    ensures { result ≡ LIMITS_BYTES }
{
    LIMITS_BYTES
}

/// The same of how a ticket stands.
#[unsafe(no_mangle)]
pub extern "C" fn ent_c_size_of_ticket_state() -> usize
    ensures { result ≡ TICKET_STATE_BYTES }
{
    TICKET_STATE_BYTES
}

/// The same of the transaction that a script became.
#[unsafe(no_mangle)]
pub extern "C" fn ent_c_size_of_submission() -> usize
    ensures { result ≡ SUBMISSION_BYTES }
{
    SUBMISSION_BYTES
}
