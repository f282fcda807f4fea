//! Steps of a room, until those who wait rest.
ghost use Rattle.std.specs.Prelude.{◌≡◌, ◌+◌, ◌++◌, ◌∷◌, [], IfErr, IfOk, OnOk, length};
ghost use Rattle.ent_room.specs.Acts.{Advances};
ghost use Rattle.ent_room.specs.Passed.{IsAtRest};
ghost use Rattle.ent_room.specs.Room.{IsBookOf};
ghost use Rattle.ent_room.specs.State.{AreResting};
ghost use Rattle.ent_room.specs.declared.step.Stepped.TheVariants.{Idle};
ghost use Rattle.ent_meet.specs.Epochs.{AreOfBooks};
ghost use Rattle.ent_meet.specs.Joints.{epoch_joints};
ghost use Rattle.ent_meet.specs.Meeting.{Closes, IsStopped, Rests};

use crate::epochs::EpochJoints;
use crate::fault::MeetFault;
use crate::joints::epoch_joints;
use ent_admission::acts_go_on;
use ent_engine::RunFault;
use ent_room::{EpochBook, NotStepped, NotTurned, Room, Stepped};
use ent_value::Refusal;
use std::alloc::{AllocError, Global};

/// Keeps the joint answers of the book of an epoch.
fn keep(alloc: Global, epochs: &mut Vec<EpochJoints>, last: &EpochBook) -> Result<(), AllocError>
    ensures { OnOk result (epochs.new.items ≡ epochs.old.items ++ epoch_joints last.now ∷ []) }
{
    epochs.push(epoch_joints(alloc, last)?)?;
    Ok(())
}

/// Keeps the joint answers of the epoch that ended last, which is the first one that isn't kept.
fn keep_last(alloc: Global, room: &Room, epochs: &mut Vec<EpochJoints>) -> Result<(), MeetFault>
    requires before { AreOfBooks 1 epochs.old.items (length epochs.old.items + 1) }
    requires ended { room.now.admission.epoch.number ≡ length epochs.old.items + 2 }
    ensures books { OnOk result (AreOfBooks 1 epochs.new.items (length epochs.new.items + 1)) }
    ensures number { OnOk result (room.now.admission.epoch.number ≡ length epochs.new.items + 1) }
    ensures refused { IfErr result (λ fault. IsStopped fault) }
{
    let Some(last) = room.book() else {
        return Err(MeetFault::Run(RunFault::Differs));
    };
    keep(alloc, epochs, last)?;
    Ok(())
}

/// Keeps the joint answers of the epoch that ended since the last call, where one did.
fn keep_ended(alloc: Global, room: &Room, epochs: &mut Vec<EpochJoints>) -> Result<(), MeetFault>
    requires before { AreOfBooks 1 epochs.old.items (length epochs.old.items + 1) }
    ensures books { OnOk result (AreOfBooks 1 epochs.new.items (length epochs.new.items + 1)) }
    ensures number { OnOk result (room.now.admission.epoch.number ≡ length epochs.new.items + 1) }
    ensures refused { IfErr result (λ fault. IsStopped fault) }
{
    let number = room.admission().epoch().number();
    match number.checked_sub(epochs.len() as u64) {
        Some(1) => Ok(()),
        Some(2) => keep_last(alloc, room, epochs),
        _ => Err(MeetFault::Run(RunFault::Differs)),
    }
}

/// Makes a step. Where memory runs out, what was done stands, and it is made again as long as there are tries left.
fn step(room: &mut Room, tries: &mut u64) -> Result<Stepped, MeetFault>
    ensures advances { Advances room.old room.new }
    ensures idle { IfOk result (λ stepped. stepped ≡ Idle
        → IsAtRest room.new.admission × AreResting room.new.admission.list) }
    ensures refused { IfErr result (λ fault. IsStopped fault) }
{
    match room.step() {
        Ok(stepped) => Ok(stepped),
        Err(Refusal::Memory) if *tries > 1 => {
            *tries -= 1;
            Ok(Stepped::Searched)
        }
        Err(Refusal::Memory) => Err(MeetFault::Run(RunFault::Memory)),
        Err(Refusal::Fault(NotStepped::TooManyRows)) => Err(MeetFault::TooManyRows),
        Err(Refusal::Fault(NotStepped::NoNumber)) => Err(MeetFault::Run(RunFault::Differs)),
    }
}

/// Steps until those who wait rest. It keeps the joint answers of the epochs that ended.
pub(crate) fn rest(
    alloc: Global,
    room: &mut Room,
    tries: u64,
) -> Result<Vec<EpochJoints>, MeetFault>
    ensures rests { IfOk result (λ epochs. Rests room.old room.new epochs.items) }
    ensures refused { IfErr result (λ fault. IsStopped fault) }
{
    acts_go_on();
    let mut epochs = Vec::new(alloc);
    let mut tries = tries;
    'steps: for _ in 0..u64::MAX {
        let stepped = step(room, &mut tries)?;
        keep_ended(alloc, room, &mut epochs)?;
        match stepped {
            Stepped::Idle => return Ok(epochs),
            Stepped::Searched | Stepped::Ran => {}
        }
    }
    Err(MeetFault::Run(RunFault::Differs))
}

/// Ends the last epoch of a room in which no batch is on.
fn turn(room: &mut Room) -> Result<(), MeetFault>
    requires at_rest { IsAtRest room.old.admission }
    ensures book { OnOk result (IsBookOf room.old.admission.epoch room.new.last) }
    ensures list { room.new.admission.list ≡ room.old.admission.list }
    ensures feed { room.new.admission.feed ≡ room.old.admission.feed }
    ensures refused { IfErr result (λ fault. IsStopped fault) }
{
    match room.turn(&[]) {
        Ok(()) => Ok(()),
        Err(Refusal::Memory) => Err(MeetFault::Run(RunFault::Memory)),
        Err(Refusal::Fault(NotTurned::TooManyRows)) => Err(MeetFault::TooManyRows),
        Err(Refusal::Fault(NotTurned::NoNumber)) => Err(MeetFault::Run(RunFault::Differs)),
        Err(Refusal::Fault(NotTurned::Busy)) => unreachable!(),
    }
}

/// Ends the last epoch of a room in which no batch is on, and keeps its joint answers too.
pub(crate) fn close(
    alloc: Global,
    room: &mut Room,
    epochs: &mut Vec<EpochJoints>,
) -> Result<(), MeetFault>
    requires at_rest { IsAtRest room.old.admission }
    ensures closes { OnOk result (Closes room.old epochs.old.items room.new epochs.new.items) }
    ensures refused { IfErr result (λ fault. IsStopped fault) }
{
    turn(room)?;
    let Some(last) = room.book() else {
        return Err(MeetFault::Run(RunFault::Differs));
    };
    keep(alloc, epochs, last)?;
    Ok(())
}
