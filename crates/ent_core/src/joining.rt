//! Posted statements are answered together.
ghost use Rattle.std.specs.Prelude.{◌≡◌, ◌++◌, OnErr, OnOk, filter, length, map, nat_eq};
ghost use Rattle.std.specs.List.{IsDistinct};
ghost use Rattle.ent_run.specs.Answered.{member_answers};
ghost use Rattle.ent_waits.specs.Pooled.{is_of_none};
ghost use Rattle.ent_protocol.specs.PoolEvents.{joining, joint_members};

use crate::store::Store;
use ent_match::{Pool, Posted};
use ent_members::MemberAnswer;
use ent_semantics::{JointAnswer, Member};
use ent_tree::Duplicate;
use ent_value::{Sequence, Value};
use std::alloc::{AllocError, Global};

/// What each member gets under its grounding, put to others.
fn push_answers(
    alloc: Global,
    asked: &[Posted],
    groundings: &[Sequence<Value>],
    given: &mut Vec<MemberAnswer>,
) -> Result<(), AllocError>
    ensures { OnOk result (given.new.items ≡ given.old.items ++ member_answers asked.now groundings.now) }
{
    let Some((query, others)) = asked.split_first() else {
        return Ok(());
    };
    let Some((values, more)) = groundings.split_first() else {
        return Ok(());
    };
    let own = MemberAnswer::of(alloc, query.tx(), query.statement(), values.as_slice())?;
    given.push(own)?;
    push_answers(alloc, others, more, given)
}

/// The members of a joint answer with their groundings, put to others.
fn push_members(
    alloc: Global,
    asked: &[Posted],
    groundings: &[Sequence<Value>],
    members: &mut Vec<Member>,
) -> Result<(), AllocError>
    ensures { OnOk result (members.new.items ≡ members.old.items ++ joint_members asked.now groundings.now) }
{
    let Some((query, others)) = asked.split_first() else {
        return Ok(());
    };
    let Some((values, more)) = groundings.split_first() else {
        return Ok(());
    };
    let grounding = values.copy(alloc)?;
    members.push(Member {
        tx: query.tx(),
        place: query.place(),
        grounding,
    })?;
    push_members(alloc, others, more, members)
}

/// Statements that are answered leave the pool.
fn withdraw_answered(pool: &mut Pool, asked: &[Posted])
    ensures { pool.new ≡ filter (is_of_none (map (λ query. query.tx) asked.now)) pool.old }
{
    if let Some((query, others)) = asked.split_first() {
        pool.withdraw(query.tx());
        withdraw_answered(pool, others);
    }
}

/// The members with these statements take their answers under these groundings, and their groups become one. Where
/// memory runs out nothing changes.
pub(crate) fn join(
    store: &mut Store,
    asked: &[Posted],
    groundings: &[Sequence<Value>],
) -> Result<(), AllocError>
    requires one_each { length groundings.now ≡ length asked.now }
    requires distinct { IsDistinct nat_eq (map (λ query. query.tx) asked.now) }
    ensures ok { OnOk result (store.new ≡ joining store.old asked.now groundings.now) }
    ensures err { OnErr result (store.new ≡ store.old) }
{
    let mut given = Vec::with_capacity(store.alloc, asked.len())?;
    push_answers(store.alloc, asked, groundings, &mut given)?;
    let mut members = Vec::with_capacity(store.alloc, asked.len())?;
    push_members(store.alloc, asked, groundings, &mut members)?;
    store.joints.reserve(1)?;
    store.run.answer(given)?;
    withdraw_answered(&mut store.pool, asked);
    store.joints.push_reserved(JointAnswer {
        members: Sequence::from_vec(members),
    });
    Ok(())
}
