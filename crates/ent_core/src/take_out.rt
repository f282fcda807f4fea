//! Members are taken out of the run. Nothing here takes memory.
ghost use Rattle.std.specs.Prelude.{◌≡◌, ◌+◌, ◌≤◌, List, filter, length, map, take};
ghost use Rattle.ent_core.specs.TakeOut.{MayLeave, is_joint_of_any, is_joint_of_others};
ghost use Rattle.ent_members.specs.RunAttempts.{numbers_in, run_attempt_of, run_attempts_in};
ghost use Rattle.ent_members.specs.Order.{tx_of};
ghost use Rattle.ent_waits.specs.Pooled.{is_of_none};
ghost use Rattle.ent_protocol.specs.Rollback.{group_numbers, rolled_back, taken_out};
ghost use Rattle.ent_protocol.specs.Run.{ending, numbers_of};
ghost use Rattle.ent_protocol.specs.State.{Member as Seen, by_number, members};
ghost use Rattle.ent_members.specs.Cause.{cause_seen};
ghost use Rattle.ent_protocol_laws.specs.Attempts.{StayWithin};
ghost use Rattle.ent_protocol_laws.specs.Standing.{StandOnce};
ghost use Rattle.ent_tree.specs.declared.limits.TheConstants.{MOST_SCRIPTS};

use crate::packed_members::PackedMembers;
use crate::store::Store;
use ent_group::{Members, Tx};
use ent_match::Pool;
use ent_members::Cause;
use ent_semantics::JointAnswer;

/// Whether one of these transactions is a member of a joint answer.
fn is_joint_of(numbers: &Members, joint: &JointAnswer) -> bool
    ensures { result ≡ is_joint_of_any numbers.now joint.now }
{
    joint
        .members
        .iter()
        .any(|member| numbers.contains(member.tx))
}

/// Removes the joint answers that have one of these transactions as a member. The first `settled` ones have none, and
/// are passed over.
fn remove_joints(joints: &mut Vec<JointAnswer>, settled: usize, numbers: &Members)
    requires within { settled ≤ length joints.old.items }
    requires stay { filter (is_joint_of_others numbers.now) (take settled joints.old.items)
        ≡ take settled joints.old.items }
    ensures { joints.new.items ≡ filter (is_joint_of_others numbers.now) joints.old.items }
{
    let mut kept = settled;
    for at in settled..joints.len() {
        if !is_joint_of(numbers, &joints[at]) {
            joints.swap(kept, at);
            kept += 1;
        }
    }
    joints.truncate(kept);
}

/// Takes the statements of these transactions out of the pool.
fn withdraw_each(pool: &mut Pool, numbers: &[Tx])
    ensures { pool.new ≡ filter (is_of_none numbers.now) pool.old }
{
    if let Some((tx, others)) = numbers.split_first() {
        pool.withdraw(*tx);
        withdraw_each(pool, others);
    }
}

/// Takes the group with a label out of the run, or all members where none is named, whatever they did. Each has a fate,
/// or waits for another run. Tells who they were, by number.
fn take_out(store: &mut Store, group: Option<Tx>, cause: Cause) -> Members
    requires room { length store.old.dormant + length store.old.fates
        + length (run_attempts_in group (members store.old)) ≤ length store.old.submitted }
    requires leaving { MayLeave (run_attempts_in group (members store.old)) store.old }
    ensures members { result ≡ numbers_in (run_attempts_in group (members store.old)) }
    ensures state { (gone : List Seen)
        → run_attempts_in group (members store.old) ≡ map run_attempt_of (by_number tx_of gone)
        → store.new ≡ taken_out gone (cause_seen cause) store.old }
{
    let run_attempts = store.run.remove(group);
    let numbers = run_attempts.numbers();
    store
        .transaction_table
        .leave(run_attempts.as_slice(), store.submitted.as_slice(), cause);
    withdraw_each(&mut store.pool, numbers.as_slice());
    remove_joints(&mut store.joints, store.settled, &numbers);
    store.lent.remove_with(&numbers);
    store.tables.roll_back(&numbers);
    numbers
}

/// Rolls a group back, and tells whom, by number.
pub(crate) fn roll_back(store: &mut Store, group: Tx, cause: Cause) -> PackedMembers
    requires few { length store.old.submitted ≤ MOST_SCRIPTS }
    requires counted { length store.old.fates + length store.old.dormant + length (members store.old)
        ≡ length store.old.submitted }
    requires within { StayWithin store.old }
    requires once { StandOnce store.old }
    ensures group { result ≡ group_numbers store.old group }
    ensures state { store.new ≡ rolled_back group (cause_seen cause) store.old }
{
    let members = take_out(store, Some(group), cause);
    PackedMembers::of(&members)
}

/// Ends the run: every group that is left is rolled back. Tells who were the members, by number.
pub(crate) fn end(store: &mut Store) -> PackedMembers
    requires few { length store.old.submitted ≤ MOST_SCRIPTS }
    requires counted { length store.old.fates + length store.old.dormant + length (members store.old)
        ≡ length store.old.submitted }
    requires within { StayWithin store.old }
    requires once { StandOnce store.old }
    ensures members { result ≡ numbers_of (members store.old) }
    ensures state { store.new ≡ ending store.old }
{
    let members = take_out(store, None, Cause::NoOne);
    store.running = false;
    store.tried.clear();
    store.lent.clear();
    PackedMembers::of(&members)
}
