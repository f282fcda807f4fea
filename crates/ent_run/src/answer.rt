//! Members that take their answers of a joint answer.
ghost use Rattle.std.specs.Prelude.{◌≡◌, IfOk, OnOk, OnErr, map, nat_eq};
ghost use Rattle.std.specs.List.{IsDistinct};
ghost use Rattle.ent_members.specs.Answered.{answer_tx};
ghost use Rattle.ent_run.specs.Answered.{answered_from};
ghost use Rattle.ent_run.specs.MemberSlab.{AreDistinct};
ghost use Rattle.ent_members.specs.Order.{tx_of};

use crate::member_slab::MemberSlab;
use crate::search::place_of;
use ent_group::Tx;
use ent_members::MemberAnswer;
use std::alloc::{AllocError, Global};

/// The numbers of those who are answered.
pub(crate) fn numbers_of(alloc: Global, given: &[MemberAnswer]) -> Result<Vec<Tx>, AllocError>
    ensures { IfOk result (λ numbers. numbers.items ≡ map answer_tx given.now) }
{
    let mut numbers = Vec::with_capacity(alloc, given.len())?;
    for own in given {
        numbers.push(own.tx())?;
    }
    Ok(numbers)
}

/// Each member takes its answer. Where memory runs out those who took theirs go back.
pub(crate) fn answer_each(
    members: &mut MemberSlab,
    given: &mut Vec<MemberAnswer>,
) -> Result<(), AllocError>
    requires numbers { AreDistinct members.old }
    requires given { IsDistinct nat_eq (map answer_tx given.old.items) }
    ensures ok { OnOk result (members.new.active ≡ map (answered_from given.old.items) members.old.active) }
    ensures err { OnErr result (members.new.active ≡ members.old.active) }
    ensures numbers { map tx_of members.new.active ≡ map tx_of members.old.active }
    ensures prepared { members.new.prepared ≡ members.old.prepared }
{
    let Some(own) = given.pop() else {
        return Ok(());
    };
    let Some(at) = place_of(&members.active(), own.tx()) else {
        return answer_each(members, given);
    };
    let member = members.active().at(at);
    let bindings = member.environment().count();
    let was_posted = member.is_posted();
    let (answer, bound) = own.into_parts();
    members.step_bound(at, answer, bound)?;
    let others = answer_each(members, given);
    if others.is_err() {
        members.step_back(at, bindings, was_posted);
    }
    others
}
