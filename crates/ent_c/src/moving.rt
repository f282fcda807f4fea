//! One move of a driver at a time, and why a transaction doesn't move.
ghost use Rattle.std.specs.Prelude.{◌≡◌, [], MatchOption};
ghost use Rattle.ent_driver.specs.Passed.{reply_seen};
ghost use Rattle.ent_driver.specs.Why.{Explains, IsUnexplained};
ghost use Rattle.ent_c.specs.Drivers.{HandsOutOr, behind};
ghost use Rattle.ent_c.specs.Moving.{IsNoMove, MakesIn, move_numbered, number_of};

use crate::driver::hand_out;
use crate::handle::Handle;
use crate::told::CallTold;
use crate::{DONE, MISUSED};
use ent_driver::{DriverFault, Move, Reply};
use std::alloc::Global;

/// The move with this number, of this transaction if a move needs one.
fn move_numbered(number: u32, tx: u64) -> Option<Move>
    ensures { result ≡ move_numbered number tx }
{
    match number {
        1 => Some(Move::StartRun),
        2 => Some(Move::Begin(tx)),
        3 => Some(Move::Pick),
        4 => Some(Move::BreakCycle),
        5 => Some(Move::EndRun),
        _ => None,
    }
}

/// The number of a reply to a move.
fn number_of(reply: &Reply) -> u32
    ensures { result ≡ number_of (reply_seen reply.now) }
{
    match reply {
        Reply::Started(_) => 1,
        Reply::Blocked(_) => 2,
        Reply::HeldBack(_) => 3,
        Reply::Posted => 4,
        Reply::Prepared => 5,
        Reply::Committed { .. } => 6,
        Reply::RolledBack(_) => 7,
        Reply::Stepped(_) => 8,
        Reply::Failed(..) => 9,
        Reply::Nothing => 10,
        Reply::Answered => 11,
        Reply::NoChoice => 12,
        Reply::Broken(..) => 13,
        Reply::NoCycle => 14,
        Reply::Ended(_) => 15,
        Reply::Absent => 16,
        Reply::NotNow => 17,
        Reply::Busy(_) => 18,
        _ => 0,
    }
}

/// Makes a move, and tells the number of its reply.
fn make_move(alloc: Global, handle: &mut Handle, asked: Move, reply: &mut u32) -> i32
    ensures { MakesIn asked handle.old.held handle.new.held reply.old reply.new result }
{
    let Some(mut driver) = handle.take(alloc) else {
        return MISUSED;
    };
    let made = driver.make(alloc, asked);
    handle.put(driver);
    match made {
        Ok(told) => {
            *reply = number_of(&told);
            drop(told);
            DONE
        }
        Err(fault) => fault.status() as i32,
    }
}

/// Makes the move with a number, for a transaction if the move needs one, and writes the number of its reply.
#[unsafe(no_mangle)]
pub extern "C" fn ent_c_make(
    alloc: Global,
    handle: &mut Handle,
    number: u32,
    tx: u64,
    reply: &mut u32,
) -> i32
    ensures { MatchOption (move_numbered number tx)
        (IsNoMove handle.old.held handle.new.held reply.old reply.new result)
        (λ asked. MakesIn asked handle.old.held handle.new.held reply.old reply.new result) }
{
    match move_numbered(number, tx) {
        Some(asked) => make_move(alloc, handle, asked, reply),
        None => MISUSED,
    }
}

/// Hands out a line that says what keeps a transaction from moving.
#[unsafe(no_mangle)]
pub extern "C" fn ent_c_why(
    alloc: Global,
    handle: &mut Handle,
    tx: u64,
    buffer: &mut [u8],
    told: &mut CallTold,
) -> i32
    ensures same { handle.new.held ≡ handle.old.held }
    ensures text { HandsOutOr (Explains (behind handle.old.held) tx) (IsUnexplained (behind handle.old.held) tx)
        [] buffer.old buffer.new told.new result }
{
    let Some(driver) = handle.take(alloc) else {
        return hand_out(Err(DriverFault::Vacant), &[], buffer, told);
    };
    let text = driver.why(alloc, tx);
    handle.put(driver);
    hand_out(text, &[], buffer, told)
}
