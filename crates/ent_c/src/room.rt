//! Rooms that a caller of C keeps and steps.
ghost use Rattle.std.specs.Prelude.{◌≡◌, IfErr, IfOk};
ghost use Rattle.std.specs.declared.option.Option.TheVariants.{None};
ghost use Rattle.ent_room.specs.Reading.{Opens};
ghost use Rattle.ent_c.specs.Rooms.{IsKept, IsMisused, IsNoRoom, OfRoom, OfStay, OpensRoom, PutsBackIn, PutsIn};
ghost use Rattle.ent_c.specs.Rooms.{GoesFurtherIn, StepsIn, TakesRows, TurnsIn, WithdrawsFrom, bound_in, given_in, limits_of};
ghost use Rattle.ent_c.specs.Rooms.{step_number};

use crate::room_handle::RoomHandle;
use crate::room_told::{refuse, refuse_of, tell_of};
use crate::rows_handle::RowsHandle;
use crate::told::CallTold;
use crate::values_handle::ValuesHandle;
use crate::{DONE, MISUSED};
use ent_bound::BoundVariable;
use ent_prepare::GivenRow;
use ent_room::{Room, Stay, Stepped};
use ent_room_calls::{RoomFault, stay_numbered, turn};
use ent_waiting::{Limits as ListLimits, Ticket};
use std::alloc::Global;

/// How many scripts may wait, and of how many that ended it is kept how. C calls it `struct entangle_limits`.
#[repr(C)]
#[derive(Clone, Copy)]
pub struct Limits {
    /// How many scripts may wait.
    pub most_waiters: u64,
    /// Of how many tickets that ended it is kept how they ended: the last so many.
    pub most_ended: u64,
}

/// A room over the text of an input and over rows, or why there is none.
fn room_over(
    alloc: Global,
    input: &[u8],
    rows: &[GivenRow],
    epoch: u64,
    next: u64,
    next_group: u64,
    limits: &Limits,
) -> Result<Box<Room>, RoomFault>
    ensures opened { IfOk result (λ room.
        Opens input.now rows.now epoch next next_group (limits_of limits.now) room.value) }
    ensures refused { IfErr result (λ fault. IsNoRoom input.now rows.now next (limits_of limits.now) fault) }
{
    let limits = ListLimits {
        most_waiters: limits.most_waiters as usize,
        most_ended: limits.most_ended as usize,
    };
    let ticket = Ticket::new(next);
    match Room::read(alloc, input, rows, epoch, ticket, next_group, limits) {
        Ok(room) => Ok(Box::new(alloc, room)?),
        Err(refusal) => Err(RoomFault::from(refusal)),
    }
}

/// A room over the text of an input and over the rows behind a handle, which are taken; or why there is none.
fn room_of(
    alloc: Global,
    input: &[u8],
    rows: &mut RowsHandle,
    epoch: u64,
    next: u64,
    next_group: u64,
    limits: &Limits,
) -> Result<Box<Room>, RoomFault>
    ensures opened { IfOk result (λ room.
        Opens input.now (given_in rows.old.held) epoch next next_group (limits_of limits.now) room.value) }
    ensures refused { IfErr result (λ fault.
        IsNoRoom input.now (given_in rows.old.held) next (limits_of limits.now) fault) }
    ensures taken { rows.new.held ≡ None }
{
    match rows.take(alloc) {
        Some(given) => {
            let all = given.as_slice();
            room_over(alloc, input, all, epoch, next, next_group, limits)
        }
        None => room_over(alloc, input, &[], epoch, next, next_group, limits),
    }
}

/// Opens a room over an input, whose scripts wait in order, with rows behind its own. A handle that isn't null is
/// misused; else the rows are taken.
#[unsafe(no_mangle)]
pub extern "C" fn ent_c_room_open(
    alloc: Global,
    handle: &mut RoomHandle,
    input: &[u8],
    rows: &mut RowsHandle,
    epoch: u64,
    next: u64,
    next_group: u64,
    limits: &Limits,
    refusal: &mut u32,
    told: &mut CallTold,
) -> i32
    ensures room { OpensRoom input.now (given_in rows.old.held) epoch next next_group (limits_of limits.now)
        handle.old.held handle.new.held (IsKept refusal.old refusal.new told.old told.new) refusal.new told.new result }
    ensures rows { TakesRows handle.old.held rows.old.held rows.new.held }
{
    if let Some(room) = handle.take(alloc) {
        handle.put(room);
        return MISUSED;
    }
    match room_of(alloc, input, rows, epoch, next, next_group, limits) {
        Ok(room) => {
            handle.put(room);
            *refusal = 0;
            *told = CallTold::text(0);
            DONE
        }
        Err(fault) => refuse_of(fault, input, refusal, told),
    }
}

/// Puts a script into a room, and tells its ticket.
fn put_in(
    room: &mut Room,
    script: &[u8],
    values: &[BoundVariable],
    stay: Stay,
    ticket: &mut u64,
    refusal: &mut u32,
    told: &mut CallTold,
) -> i32
    ensures { PutsIn script.now values.now stay room.old room.new ticket.old ticket.new refusal.new told.new result }
{
    match room.put(script, values, stay) {
        Ok(given) => {
            *ticket = given.number();
            *refusal = 0;
            *told = CallTold::text(0);
            DONE
        }
        Err(fault) => refuse_of(RoomFault::from(fault), script, refusal, told),
    }
}

/// Puts a script into a room, with the values behind a handle bound in it, and tells its ticket.
fn put_bound(
    alloc: Global,
    room: &mut Room,
    script: &[u8],
    values: &mut ValuesHandle,
    stay: Stay,
    ticket: &mut u64,
    refusal: &mut u32,
    told: &mut CallTold,
) -> i32
    ensures put { PutsIn script.now (bound_in values.old.held) stay room.old room.new ticket.old ticket.new refusal.new
        told.new result }
    ensures same { values.new.held ≡ values.old.held }
{
    match values.take(alloc) {
        Some(bound) => {
            let status = put_in(room, script, bound.as_slice(), stay, ticket, refusal, told);
            values.put(bound);
            status
        }
        None => put_in(room, script, &[], stay, ticket, refusal, told),
    }
}

/// Puts a script into the room behind a handle, and tells its ticket.
fn put_for(
    alloc: Global,
    handle: &mut RoomHandle,
    script: &[u8],
    values: &mut ValuesHandle,
    stay: Stay,
    ticket: &mut u64,
    refusal: &mut u32,
    told: &mut CallTold,
) -> i32
    ensures put { OfRoom handle.old.held handle.new.held result
        ((ticket.new ≡ ticket.old) × IsKept refusal.old refusal.new told.old told.new)
        (λ old new. PutsIn script.now (bound_in values.old.held) stay old new ticket.old ticket.new refusal.new told.new
        result) }
    ensures same { values.new.held ≡ values.old.held }
{
    let Some(mut room) = handle.take(alloc) else {
        return MISUSED;
    };
    let status = put_bound(
        alloc, &mut room, script, values, stay, ticket, refusal, told,
    );
    handle.put(room);
    status
}

/// Puts a script into a room, with values bound in it, and tells its ticket.
#[unsafe(no_mangle)]
pub extern "C" fn ent_c_room_put(
    alloc: Global,
    handle: &mut RoomHandle,
    script: &[u8],
    values: &mut ValuesHandle,
    stay: i64,
    ticket: &mut u64,
    refusal: &mut u32,
    told: &mut CallTold,
) -> i32
    ensures put { OfStay stay
        (IsMisused handle.old.held handle.new.held result
        ((ticket.new ≡ ticket.old) × IsKept refusal.old refusal.new told.old told.new))
        (λ stay. OfRoom handle.old.held handle.new.held result
        ((ticket.new ≡ ticket.old) × IsKept refusal.old refusal.new told.old told.new)
        (λ old new. PutsIn script.now (bound_in values.old.held) stay old new ticket.old ticket.new refusal.new told.new
        result)) }
    ensures same { values.new.held ≡ values.old.held }
{
    match stay_numbered(stay) {
        Some(stay) => put_for(alloc, handle, script, values, stay, ticket, refusal, told),
        None => MISUSED,
    }
}

/// Puts a script of an earlier process back into a room.
fn restore_in(
    room: &mut Room,
    ticket: u64,
    script: &[u8],
    values: &[BoundVariable],
    stay: Stay,
    batches: u64,
    refusal: &mut u32,
    told: &mut CallTold,
) -> i32
    ensures { PutsBackIn ticket script.now values.now stay batches room.old room.new refusal.new told.new result }
{
    match room.restore(Ticket::new(ticket), script, values, stay, batches) {
        Ok(()) => {
            *refusal = 0;
            *told = CallTold::text(0);
            DONE
        }
        Err(fault) => refuse_of(RoomFault::from(fault), script, refusal, told),
    }
}

/// Puts a script of an earlier process back into a room, with the values behind a handle bound in it.
fn restore_bound(
    alloc: Global,
    room: &mut Room,
    ticket: u64,
    script: &[u8],
    values: &mut ValuesHandle,
    stay: Stay,
    batches: u64,
    refusal: &mut u32,
    told: &mut CallTold,
) -> i32
    ensures put { PutsBackIn ticket script.now (bound_in values.old.held) stay batches room.old room.new refusal.new
        told.new result }
    ensures same { values.new.held ≡ values.old.held }
{
    match values.take(alloc) {
        Some(bound) => {
            let variables = bound.as_slice();
            let status = restore_in(
                room, ticket, script, variables, stay, batches, refusal, told,
            );
            values.put(bound);
            status
        }
        None => restore_in(room, ticket, script, &[], stay, batches, refusal, told),
    }
}

/// Puts a script of an earlier process back into the room behind a handle.
fn restore_for(
    alloc: Global,
    handle: &mut RoomHandle,
    ticket: u64,
    script: &[u8],
    values: &mut ValuesHandle,
    stay: Stay,
    batches: u64,
    refusal: &mut u32,
    told: &mut CallTold,
) -> i32
    ensures put { OfRoom handle.old.held handle.new.held result (IsKept refusal.old refusal.new told.old told.new)
        (λ old new. PutsBackIn ticket script.now (bound_in values.old.held) stay batches old new refusal.new told.new
        result) }
    ensures same { values.new.held ≡ values.old.held }
{
    let Some(mut room) = handle.take(alloc) else {
        return MISUSED;
    };
    let status = restore_bound(
        alloc, &mut room, ticket, script, values, stay, batches, refusal, told,
    );
    handle.put(room);
    status
}

/// Puts a script of an earlier process back into a room, under its ticket, with values bound in it.
#[unsafe(no_mangle)]
pub extern "C" fn ent_c_room_restore(
    alloc: Global,
    handle: &mut RoomHandle,
    ticket: u64,
    script: &[u8],
    values: &mut ValuesHandle,
    stay: i64,
    batches: u64,
    refusal: &mut u32,
    told: &mut CallTold,
) -> i32
    ensures put { OfStay stay
        (IsMisused handle.old.held handle.new.held result (IsKept refusal.old refusal.new told.old told.new))
        (λ stay. OfRoom handle.old.held handle.new.held result (IsKept refusal.old refusal.new told.old told.new)
        (λ old new. PutsBackIn ticket script.now (bound_in values.old.held) stay batches old new refusal.new told.new
        result)) }
    ensures same { values.new.held ≡ values.old.held }
{
    match stay_numbered(stay) {
        Some(stay) => {
            restore_for(
                alloc, handle, ticket, script, values, stay, batches, refusal, told,
            )
        }
        None => MISUSED,
    }
}

/// Takes a script back.
fn withdraw_from(room: &mut Room, ticket: u64, refusal: &mut u32) -> i32
    ensures { WithdrawsFrom ticket room.old room.new refusal.new result }
{
    match room.withdraw(Ticket::new(ticket)) {
        Ok(()) => {
            *refusal = 0;
            DONE
        }
        Err(fault) => refuse(RoomFault::from(fault), refusal),
    }
}

/// Takes a script back, which then waits no more.
#[unsafe(no_mangle)]
pub extern "C" fn ent_c_room_withdraw(
    alloc: Global,
    handle: &mut RoomHandle,
    ticket: u64,
    refusal: &mut u32,
) -> i32
    ensures { OfRoom handle.old.held handle.new.held result (refusal.new ≡ refusal.old)
        (λ old new. WithdrawsFrom ticket old new refusal.new result) }
{
    let Some(mut room) = handle.take(alloc) else {
        return MISUSED;
    };
    let status = withdraw_from(&mut room, ticket, refusal);
    handle.put(room);
    status
}

/// The number of what a step did.
fn number_of(stepped: Stepped) -> u32
    ensures { result ≡ step_number stepped }
{
    match stepped {
        Stepped::Idle => 1,
        Stepped::Searched => 2,
        Stepped::Ran => 3,
    }
}

/// Makes a step.
fn step_in(room: &mut Room, step: &mut u32, refusal: &mut u32) -> i32
    ensures { StepsIn room.old room.new step.old step.new refusal.new result }
{
    match room.step() {
        Ok(stepped) => {
            *step = number_of(stepped);
            *refusal = 0;
            DONE
        }
        Err(fault) => refuse(RoomFault::from(fault), refusal),
    }
}

/// Makes a step, and tells the number of what it did.
#[unsafe(no_mangle)]
pub extern "C" fn ent_c_room_step(
    alloc: Global,
    handle: &mut RoomHandle,
    step: &mut u32,
    refusal: &mut u32,
) -> i32
    ensures { OfRoom handle.old.held handle.new.held result ((step.new ≡ step.old) × (refusal.new ≡ refusal.old))
        (λ old new. StepsIn old new step.old step.new refusal.new result) }
{
    let Some(mut room) = handle.take(alloc) else {
        return MISUSED;
    };
    let status = step_in(&mut room, step, refusal);
    handle.put(room);
    status
}

/// Has those go on whom a bound stopped.
fn further_in(room: &mut Room, refusal: &mut u32) -> i32
    ensures { GoesFurtherIn room.old room.new refusal.new result }
{
    match room.further() {
        Ok(()) => {
            *refusal = 0;
            DONE
        }
        Err(refused) => refuse(RoomFault::from(refused), refusal),
    }
}

/// Has those go on whom a bound stopped: the next steps give them their turns.
#[unsafe(no_mangle)]
pub extern "C" fn ent_c_room_further(
    alloc: Global,
    handle: &mut RoomHandle,
    refusal: &mut u32,
) -> i32
    ensures { OfRoom handle.old.held handle.new.held result (refusal.new ≡ refusal.old)
        (λ old new. GoesFurtherIn old new refusal.new result) }
{
    let Some(mut room) = handle.take(alloc) else {
        return MISUSED;
    };
    let status = further_in(&mut room, refusal);
    handle.put(room);
    status
}

/// Ends the epoch, and begins the next one, in which those tables are empty whose names stand in this text.
#[unsafe(no_mangle)]
pub extern "C" fn ent_c_room_turn(
    alloc: Global,
    handle: &mut RoomHandle,
    drained: &[u8],
    refusal: &mut u32,
    told: &mut CallTold,
) -> i32
    ensures { OfRoom handle.old.held handle.new.held result (IsKept refusal.old refusal.new told.old told.new)
        (λ old new. TurnsIn drained.now old new refusal.new told.new result) }
{
    let Some(mut room) = handle.take(alloc) else {
        return MISUSED;
    };
    let turned = turn(alloc, &mut room, drained);
    handle.put(room);
    tell_of(turned, drained, refusal, told)
}

/// Frees a room, and leaves null; a null handle stays so.
#[unsafe(no_mangle)]
pub extern "C" fn ent_c_room_free(alloc: Global, handle: &mut RoomHandle)
    ensures { handle.new.held ≡ None }
{
    drop(handle.take(alloc));
}
