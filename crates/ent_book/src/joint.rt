//! The text of joint answers.
ghost use Rattle.std.specs.Prelude.{◌≡◌, ◌++◌, OnOk};
ghost use Rattle.ent_book.specs.Report.{joint_line, joints_text, member_place, member_text, members_text};

use crate::piece::append_number;
use ent_semantics::{JointAnswer, Member};
use std::alloc::{AllocError, Global};

/// An entangled statement: its transaction and its place.
pub(crate) fn append_member_place(
    alloc: Global,
    out: &mut Vec<u8>,
    member: &Member,
) -> Result<(), AllocError>
    ensures { OnOk result (out.new.items ≡ out.old.items ++ member_place member.now) }
{
    append_number(alloc, out, member.tx)?;
    out.push(b'.')?;
    append_number(alloc, out, member.place)
}

/// A member, behind a space.
fn append_member(alloc: Global, out: &mut Vec<u8>, member: &Member) -> Result<(), AllocError>
    ensures { OnOk result (out.new.items ≡ out.old.items ++ member_text member.now) }
{
    out.push(b' ')?;
    append_member_place(alloc, out, member)
}

fn append_members(alloc: Global, out: &mut Vec<u8>, members: &[Member]) -> Result<(), AllocError>
    ensures { OnOk result (out.new.items ≡ out.old.items ++ members_text members.now) }
{
    for member in members {
        append_member(alloc, out, member)?;
    }
    Ok(())
}

pub(crate) fn append_joint(
    alloc: Global,
    out: &mut Vec<u8>,
    number: u64,
    joint: &JointAnswer,
) -> Result<(), AllocError>
    ensures { OnOk result (out.new.items ≡ out.old.items ++ joint_line number joint.now) }
{
    out.extend_from_slice(b"joint ")?;
    append_number(alloc, out, number)?;
    append_members(alloc, out, joint.members.as_slice())?;
    out.push(b'\n')?;
    Ok(())
}

/// Joint answers in the order made, from number 1.
pub(crate) fn append_joints(
    alloc: Global,
    out: &mut Vec<u8>,
    joints: &[JointAnswer],
) -> Result<(), AllocError>
    ensures { OnOk result (out.new.items ≡ out.old.items ++ joints_text 1 joints.now) }
{
    let mut number = 1u64;
    for joint in joints {
        append_joint(alloc, out, number, joint)?;
        number += 1;
    }
    Ok(())
}
