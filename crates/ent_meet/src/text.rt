//! The text of a meeting.
ghost use Rattle.std.specs.Prelude.{◌≡◌, ◌+◌, ◌++◌, IfOk, OnOk};
ghost use Rattle.ent_meet.specs.Text.{epochs_text, joint_line, joints_text, meeting_text, member_text, members_text};
ghost use Rattle.ent_meet.specs.Text.{tickets_in, tickets_of, tickets_of_epoch};

use crate::epochs::{Answered, EpochJoints, Joint};
use crate::tables::append_tables;
use crate::tickets::append_tickets;
use ent_book::append_number;
use ent_feed::{Commit, Group};
use ent_room::Room;
use ent_semantics::element;
use std::alloc::{AllocError, Global};

/// The tickets of the commits that groups tell of an epoch, in order.
fn tickets_in(alloc: Global, groups: &[Group], epoch: u64) -> Result<Vec<u64>, AllocError>
    ensures { IfOk result (λ tickets. tickets.items ≡ tickets_in epoch groups.now) }
{
    let mut tickets = Vec::new(alloc);
    for group in groups {
        push_of_epoch(&mut tickets, group, epoch)?;
    }
    Ok(tickets)
}

fn push_of_epoch(tickets: &mut Vec<u64>, group: &Group, epoch: u64) -> Result<(), AllocError>
    ensures { OnOk result (tickets.new.items ≡ tickets.old.items ++ tickets_of_epoch epoch group.now) }
{
    if group.epoch == epoch {
        return push_tickets(tickets, group.commits.as_slice());
    }
    Ok(())
}

fn push_tickets(tickets: &mut Vec<u64>, commits: &[Commit]) -> Result<(), AllocError>
    ensures { OnOk result (tickets.new.items ≡ tickets.old.items ++ tickets_of commits.now) }
{
    for commit in commits {
        tickets.push(commit.ticket.number())?;
    }
    Ok(())
}

/// A statement, by its ticket and its place, behind a space.
fn append_member(
    alloc: Global,
    out: &mut Vec<u8>,
    tickets: &[u64],
    member: Answered,
) -> Result<(), AllocError>
    ensures { OnOk result (out.new.items ≡ out.old.items ++ member_text tickets.now member) }
{
    let ticket = element(tickets, member.commit).copied().unwrap_or(0);
    out.push(b' ')?;
    append_number(alloc, out, ticket)?;
    out.push(b'.')?;
    append_number(alloc, out, member.place)
}

fn append_members(
    alloc: Global,
    out: &mut Vec<u8>,
    tickets: &[u64],
    members: &[Answered],
) -> Result<(), AllocError>
    ensures { OnOk result (out.new.items ≡ out.old.items ++ members_text tickets.now members.now) }
{
    for member in members {
        append_member(alloc, out, tickets, *member)?;
    }
    Ok(())
}

fn append_joint(
    alloc: Global,
    out: &mut Vec<u8>,
    tickets: &[u64],
    number: u64,
    joint: &Joint,
) -> Result<(), AllocError>
    ensures { OnOk result (out.new.items ≡ out.old.items ++ joint_line tickets.now number joint.now) }
{
    out.extend_from_slice(b"joint ")?;
    append_number(alloc, out, number)?;
    append_members(alloc, out, tickets, joint.members.as_slice())?;
    out.push(b'\n')?;
    Ok(())
}

/// A number counted on. No memory holds as many as would go beyond the greatest number.
fn counted_on(number: u64, count: u64) -> Result<u64, AllocError>
    ensures { IfOk result (λ next. next ≡ number + count) }
{
    match number.checked_add(count) {
        Some(next) => Ok(next),
        None => Err(AllocError),
    }
}

/// Joint answers of an epoch, the first of which has this number.
fn append_joints(
    alloc: Global,
    out: &mut Vec<u8>,
    tickets: &[u64],
    first: u64,
    joints: &[Joint],
) -> Result<(), AllocError>
    ensures { OnOk result (out.new.items ≡ out.old.items ++ joints_text tickets.now first joints.now) }
{
    let mut number = first;
    for joint in joints {
        append_joint(alloc, out, tickets, number, joint)?;
        number = counted_on(number, 1)?;
    }
    Ok(())
}

/// The joint answers of epochs, counted from 1 over all of them.
fn append_epochs(
    alloc: Global,
    out: &mut Vec<u8>,
    groups: &[Group],
    epochs: &[EpochJoints],
) -> Result<(), AllocError>
    ensures { OnOk result (out.new.items ≡ out.old.items ++ epochs_text groups.now 1 epochs.now) }
{
    let mut number = 1u64;
    for epoch in epochs {
        let tickets = tickets_in(alloc, groups, epoch.epoch)?;
        append_joints(
            alloc,
            out,
            tickets.as_slice(),
            number,
            epoch.joints.as_slice(),
        )?;
        number = counted_on(number, epoch.joints.len() as u64)?;
    }
    Ok(())
}

/// The text of what a room came to, whose epochs had these joint answers.
pub(crate) fn meeting_text(
    alloc: Global,
    room: &Room,
    epochs: &[EpochJoints],
) -> Result<Vec<u8>, AllocError>
    ensures { IfOk result (λ text. text.items ≡ meeting_text room.now epochs.now) }
{
    let mut out = Vec::new(alloc);
    out.extend_from_slice(b"meet 1\n")?;
    append_tickets(alloc, &mut out, room)?;
    append_epochs(alloc, &mut out, room.groups(0), epochs)?;
    append_tables(alloc, &mut out, room.book())?;
    out.extend_from_slice(b"end\n")?;
    Ok(out)
}
