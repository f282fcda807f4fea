//! Changes of one member that isn't prepared.
ghost use Rattle.std.specs.Prelude.{◌≡◌, ◌<◌, ℕ, length, map, OnOk, OnErr};
ghost use Rattle.ent_protocol.specs.Finish.{stepped};
ghost use Rattle.ent_members.specs.Changes.{posted, stepping};
ghost use Rattle.ent_members.specs.Order.{tx_of};
ghost use Rattle.ent_run.specs.MemberSlab.{AreDistinct};
ghost use Rattle.ent_run.specs.Places.{Changes, IsAt};

use crate::member_slab::MemberSlab;
use crate::search::place_of;
use ent_group::Tx;
use ent_semantics::Answer;
use ent_value::{Name, Value};
use std::alloc::AllocError;

/// The statement of the member at a place is posted.
pub(crate) fn post(members: &mut MemberSlab, at: usize)
    requires within { at < length members.old.active }
    requires numbers { AreDistinct members.old }
    ensures changed { (tx : ℕ) → IsAt members.old.active tx at
        → Changes posted tx members.old.active members.new.active }
    ensures numbers { map tx_of members.new.active ≡ map tx_of members.old.active }
    ensures prepared { members.new.prepared ≡ members.old.prepared }
{
    members.post(at);
}

/// The member of a number takes the answer of its statement, and is at the next one.
pub(crate) fn step(members: &mut MemberSlab, tx: Tx, answer: Answer) -> Result<(), AllocError>
    requires { AreDistinct members.old }
    ensures ok { OnOk result (Changes (stepped answer) tx members.old.active members.new.active) }
    ensures err { OnErr result (members.new ≡ members.old) }
    ensures numbers { map tx_of members.new.active ≡ map tx_of members.old.active }
    ensures prepared { members.new.prepared ≡ members.old.prepared }
{
    match place_of(&members.active(), tx) {
        Some(at) => members.step(at, answer),
        None => Ok(()),
    }
}

/// The member of a number takes the answer of its statement, which binds host variables, and is at the next one.
pub(crate) fn step_bound(
    members: &mut MemberSlab,
    tx: Tx,
    answer: Answer,
    bound: Vec<(Name, Value)>,
) -> Result<(), AllocError>
    requires { AreDistinct members.old }
    ensures ok { OnOk result (Changes (stepping answer bound.items) tx members.old.active members.new.active) }
    ensures err { OnErr result (members.new ≡ members.old) }
    ensures numbers { map tx_of members.new.active ≡ map tx_of members.old.active }
    ensures prepared { members.new.prepared ≡ members.old.prepared }
{
    match place_of(&members.active(), tx) {
        Some(at) => members.step_bound(at, answer, bound),
        None => Ok(()),
    }
}
