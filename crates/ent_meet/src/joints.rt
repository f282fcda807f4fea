//! The joint answers of a book.
ghost use Rattle.std.specs.Prelude.{◌≡◌, IfOk, map};
ghost use Rattle.std.specs.Option.{option_copied};
ghost use Rattle.ent_meet.specs.Joints.{answered_of, commit_number, epoch_joints, joint_of, joints_of};

use crate::epochs::{Answered, EpochJoints, Joint};
use ent_room::EpochBook;
use ent_semantics::{Fate, Fated, JointAnswer, Member, element};
use ent_value::Sequence;
use std::alloc::{AllocError, Global};

/// The number of the commit that a fate tells; 0 where it tells none.
fn commit_number(fated: Option<&Fated>) -> u64
    ensures { result ≡ commit_number (option_copied fated.entry) }
{
    match fated {
        Some(fated) => match fated.fate {
            Fate::Committed { number, .. } => number,
            Fate::GaveUp { .. } | Fate::RolledBack { .. } | Fate::Failed { .. } => 0,
        },
        None => 0,
    }
}

fn answered_of(fates: &[Fated], member: &Member) -> Answered
    ensures { result ≡ answered_of fates.now member.now }
{
    let fated = element(fates, member.tx);
    Answered {
        commit: commit_number(fated),
        place: member.place,
    }
}

fn joint_of(alloc: Global, fates: &[Fated], joint: &JointAnswer) -> Result<Joint, AllocError>
    ensures { IfOk result (λ made. made ≡ joint_of fates.now joint.now) }
{
    let mut members = Vec::with_capacity(alloc, joint.members.len())?;
    for member in joint.members.as_slice() {
        members.push(answered_of(fates, member))?;
    }
    Ok(Joint {
        members: Sequence::from_vec(members),
    })
}

fn joints_of(
    alloc: Global,
    fates: &[Fated],
    joints: &[JointAnswer],
) -> Result<Vec<Joint>, AllocError>
    ensures { IfOk result (λ made. made.items ≡ joints_of fates.now joints.now) }
{
    let mut made = Vec::with_capacity(alloc, joints.len())?;
    for joint in joints {
        made.push(joint_of(alloc, fates, joint)?)?;
    }
    Ok(made)
}

/// The joint answers of the book of an epoch.
pub(crate) fn epoch_joints(alloc: Global, last: &EpochBook) -> Result<EpochJoints, AllocError>
    ensures { IfOk result (λ made. made ≡ epoch_joints last.now) }
{
    let book = last.book.book();
    let joints = joints_of(alloc, book.fates.as_slice(), book.joint_answers.as_slice())?;
    Ok(EpochJoints {
        epoch: last.epoch,
        joints: Sequence::from_vec(joints),
    })
}
