//! A room in which the scripts of an input wait.
ghost use Rattle.std.specs.Prelude.{◌≡◌, [], IfErr, IfOk, None, OnOk};
ghost use Rattle.std.specs.Option.{option_copied};
ghost use Rattle.std.specs.Str.{IsUtf8};
ghost use Rattle.ent_admission.specs.Admission.{fresh};
ghost use Rattle.ent_engine.specs.Reading.{IsRefused};
ghost use Rattle.ent_form.specs.OpeningFault.{opening_fault};
ghost use Rattle.ent_input.specs.Reading.{IsInput};
ghost use Rattle.ent_room.specs.Putting.{Puts, tables_of};
ghost use Rattle.ent_room.specs.Room.{without_book};
ghost use Rattle.ent_text.specs.Left.{tokens_left};
ghost use Rattle.ent_tree.specs.declared.limits.TheConstants.{MOST_SCRIPTS};
ghost use Rattle.ent_within.specs.Said.{scripts_said};
ghost use Rattle.ent_meet.specs.Meeting.{IsNotMet, IsStopped};
ghost use Rattle.ent_meet.specs.Opening.{AreWaiting, IsOpened, stay_of};

use crate::fault::MeetFault;
use ent_core::Core;
use ent_engine::RunFault;
use ent_input::read_input;
use ent_print::print_script;
use ent_room::{Room, Stay};
use ent_tree::{Duplicate, Input, MOST_SCRIPTS, Opening, Script};
use ent_value::{Refusal, Sequence};
use ent_waiting::{Limits, Ticket};
use ent_within::scripts_within;
use std::alloc::{AllocError, Global};
use std::str;

/// For how long a script waits: as long as its WITHIN says, if it says so, else until it is withdrawn.
fn stay_of(said: Option<&bool>) -> Stay
    ensures { result ≡ stay_of (option_copied said.entry) }
{
    match said {
        Some(false) => Stay::UntilWithdrawn,
        Some(true) | None => Stay::AsWritten,
    }
}

/// Puts a script into a room.
fn put(room: &mut Room, text: &[u8], stay: Stay) -> Result<(), MeetFault>
    ensures puts { OnOk result (Puts room.old.admission text.now [] stay room.new.admission.list) }
    ensures epoch { room.new.admission.epoch ≡ room.old.admission.epoch }
    ensures coming { room.new.admission.coming ≡ room.old.admission.coming }
    ensures feed { room.new.admission.feed ≡ room.old.admission.feed }
    ensures news { room.new.admission.news ≡ room.old.admission.news }
    ensures last { room.new.last ≡ room.old.last }
    ensures refused { IfErr result (λ fault. IsStopped fault) }
{
    match room.put(text, &[], stay) {
        Ok(_) => Ok(()),
        Err(Refusal::Memory) => Err(MeetFault::Run(RunFault::Memory)),
        Err(Refusal::Fault(_)) => Err(MeetFault::Run(RunFault::Differs)),
    }
}

/// Puts scripts into a room, in order, each by its printed text.
fn put_all(
    alloc: Global,
    room: &mut Room,
    scripts: &[Script],
    said: &Sequence<bool>,
) -> Result<(), MeetFault>
    ensures list { OnOk result (AreWaiting (tables_of room.old.admission) said.now 0 scripts.now
        room.old.admission.list room.new.admission.list) }
    ensures epoch { room.new.admission.epoch ≡ room.old.admission.epoch }
    ensures coming { room.new.admission.coming ≡ room.old.admission.coming }
    ensures feed { room.new.admission.feed ≡ room.old.admission.feed }
    ensures news { room.new.admission.news ≡ room.old.admission.news }
    ensures last { room.new.last ≡ room.old.last }
    ensures refused { IfErr result (λ fault. IsStopped fault) }
{
    let mut index = 0usize;
    for script in scripts {
        let text = print_script(alloc, script)?;
        put(room, text.as_slice(), stay_of(said.get(index)))?;
        index += 1;
    }
    Ok(())
}

/// Which scripts of a text say WITHIN.
fn said_in(alloc: Global, bytes: &[u8]) -> Result<Vec<bool>, AllocError>
    requires utf8 { IsUtf8 bytes.now }
    ensures { IfOk result (λ said. said.items ≡ scripts_said (tokens_left 0 bytes.now)) }
{
    match str::from_utf8(bytes) {
        Ok(text) => scripts_within(alloc, text),
        Err(_) => unreachable!(),
    }
}

/// The input that bytes are, without a fault; or their first fault.
fn input_of(alloc: Global, bytes: &[u8]) -> Result<Input, RunFault>
    ensures input { IfOk result (λ input. IsInput bytes.now input) }
    ensures refused { IfErr result (λ fault. IsRefused bytes.now fault) }
{
    let input = read_input(alloc, bytes)?;
    let copy = input.copy(alloc)?;
    Core::over(alloc, copy)?;
    Ok(input)
}

/// A room over an opening without a fault of form, in which nobody waits. Ticket, group and epoch are counted from 1.
/// As many may wait, and are kept when they ended, as an input has scripts.
fn empty_room(alloc: Global, opening: Opening) -> Result<Room, AllocError>
    requires formed { opening_fault opening ≡ None }
    ensures { IfOk result (λ room. room ≡ without_book (fresh 1 opening 1 1 MOST_SCRIPTS MOST_SCRIPTS)) }
{
    let limits = Limits {
        most_waiters: MOST_SCRIPTS,
        most_ended: MOST_SCRIPTS,
    };
    match Room::open(alloc, opening, 1, Ticket::new(1), 1, limits) {
        Ok(room) => Ok(room),
        Err(Refusal::Memory) => Err(AllocError),
        Err(Refusal::Fault(_)) => unreachable!(),
    }
}

/// A room over the opening of an input, in which its scripts wait in their order: one that says WITHIN for as many
/// batches, and another until it is withdrawn. Or the first fault of the input.
pub(crate) fn opened(alloc: Global, bytes: &[u8]) -> Result<Room, MeetFault>
    ensures opened { IfOk result (λ room. IsOpened bytes.now room) }
    ensures refused { IfErr result (λ fault. IsNotMet bytes.now fault) }
{
    let Input { opening, scripts } = input_of(alloc, bytes)?;
    let said = Sequence::from_vec(said_in(alloc, bytes)?);
    let mut room = empty_room(alloc, opening)?;
    put_all(alloc, &mut room, scripts.as_slice(), &said)?;
    Ok(room)
}
