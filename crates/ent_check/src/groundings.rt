//! The groundings that are told.
ghost use Rattle.std.specs.Prelude.{◌≡◌, ℕ, map};
ghost use Rattle.std.specs.Option.{option_map};
ghost use Rattle.ent_history.specs.Told.{joint_answer_of};
ghost use Rattle.ent_history.specs.Placed.{member_at, placed};
ghost use Rattle.ent_check.specs.Seats.{AreSeatsOf};
ghost use Rattle.ent_check.specs.Told.{member_in, told_seat};
ghost use Rattle.ent_semantics.specs.Entangled.{Valuation};
ghost use Rattle.ent_semantics.specs.Serial.{numbered};

use crate::seat::Seats;
use ent_history::{ToldJoint, ToldMember};
use ent_semantics::{Member, element};
use ent_value::Value;
use std::marker::Model;

/// A member of a joint answer: the number of that, its own number in it, both counted from 1, and its grounding.
#[derive(Drop)]
pub struct Seat<'a> {
    pub joint: u64,
    pub number: u64,
    pub grounding: &'a [Value],
}

/// The groundings that joint answers tell of statements. Contracts see the members of the joint answers, in order.
#[derive(Drop)]
pub struct Groundings<'a> {
    joints: &'a [ToldJoint],
    seats: &'a Seats,
}

impl<'a> Model for Groundings<'a> {
    ghost use Rattle.std.specs.Prelude.{List, map};
    ghost use Rattle.ent_history.specs.Told.{joint_answer_of};
    ghost use Rattle.ent_history.specs.Placed.{Placed, placed};
    ghost use Rattle.ent_check.specs.Seats.{AreSeatsOf};

    ghost Value = { List Placed };

    ghost view = { λ g. placed (map joint_answer_of g.joints.now) };

    ghost invariant = { λ g. AreSeatsOf (placed (map joint_answer_of g.joints.now)) g.seats.now };
}

/// The member of a number, counted from 1.
fn member_numbered(members: &[ToldMember], number: u64) -> Option<&Member>
    ensures { option_map (λ member. member.now) result ≡ numbered (map (λ told. told.member) members.now) number }
{
    match element(members, number) {
        Some(told) => Some(&told.member),
        None => None,
    }
}

/// The member of a number in the joint answer of a number, both counted from 1.
fn member_in(joints: &[ToldJoint], joint: u64, number: u64) -> Option<&Member>
    ensures { option_map (λ member. member.now) result ≡ member_in (map joint_answer_of joints.now) (joint, number) }
{
    match element(joints, joint) {
        Some(told) => member_numbered(told.members.as_slice(), number),
        None => None,
    }
}

impl<'a> Groundings<'a> {
    /// What these joint answers tell, whose members have these seats.
    pub fn new(joints: &'a [ToldJoint], seats: &'a Seats) -> Self
        requires { AreSeatsOf (placed (map joint_answer_of joints.now)) seats.now }
        ensures { result ≡ placed (map joint_answer_of joints.now) }
    {
        Groundings { joints, seats }
    }

    /// The seat of the first member that is the statement of a place of a transaction.
    pub fn seat(&self, tx: u64, place: u64) -> Option<Seat<'_>>
        ensures { option_map {U = ℕ × ℕ × Valuation} (λ seat. (seat.joint, seat.number, seat.grounding.now)) result
            ≡ option_map told_seat (member_at self.now tx place) }
    {
        match self.seats.get(&(tx, place)) {
            Some(seat) => seat_in(self.joints, seat.0, seat.1),
            None => None,
        }
    }
}

/// The seat of a member in joint answers, where it is there.
fn seat_in(joints: &[ToldJoint], joint: u64, number: u64) -> Option<Seat<'_>>
    ensures { option_map {U = ℕ × ℕ × Valuation} (λ seat. (seat.joint, seat.number, seat.grounding.now)) result
        ≡ option_map {U = ℕ × ℕ × Valuation} (λ member. (joint, number, member.grounding))
        (member_in (map joint_answer_of joints.now) (joint, number)) }
{
    match member_in(joints, joint, number) {
        Some(member) => Some(Seat {
            joint,
            number,
            grounding: member.grounding.as_slice(),
        }),
        None => None,
    }
}
