//! The members of joint answers take their seats.
ghost use Rattle.std.specs.Prelude.{◌≡◌, ◌++◌, List, map, IfOk, OnOk};
ghost use Rattle.std.specs.BTreeMap.{get};
ghost use Rattle.ent_check.specs.Seats.{AreSeatsOf, place_cmp};
ghost use Rattle.ent_history.specs.Told.{joint_answer_of};
ghost use Rattle.ent_history.specs.Placed.{Placed, members_from, placed};

use crate::seat::{Seats, take_seat};
use ent_history::{ToldJoint, ToldMember};
use std::alloc::{AllocError, Global};
use std::collections::BTreeMap;

/// The seat of the member that is the statement of a transaction's place, if there is one.
pub(crate) fn seat_at(seats: &Seats, tx: u64, place: u64) -> Option<(u64, u64)>
    ensures { result ≡ get place_cmp seats.now (tx, place) }
{
    seats.get(&(tx, place)).copied()
}

/// The members of the joint answer of a number take their seats, in their order.
fn take_seats(seats: &mut Seats, joint: u64, members: &[ToldMember]) -> Result<(), AllocError>
    ensures { (before : List Placed) → AreSeatsOf before seats.old
        → OnOk result (AreSeatsOf (before ++ members_from joint 1 (map (λ told. told.member) members.now)) seats.new) }
{
    for (index, told) in members.iter().enumerate() {
        take_seat(seats, joint, index as u64 + 1, &told.member)?;
    }
    Ok(())
}

/// Where the members of joint answers stand, the first of these having number 1. Where a statement is a member more
/// than once, the first has the seat.
pub fn seats_of(alloc: Global, joints: &[ToldJoint]) -> Result<Seats, AllocError>
    ensures { IfOk result (λ seats. AreSeatsOf (placed (map joint_answer_of joints.now)) seats) }
{
    let mut seats = BTreeMap::new(alloc);
    for (index, joint) in joints.iter().enumerate() {
        take_seats(&mut seats, index as u64 + 1, joint.members.as_slice())?;
    }
    Ok(seats)
}
