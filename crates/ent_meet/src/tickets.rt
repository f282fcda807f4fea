//! The text of tickets: what became of each, and the answers of those that committed.
ghost use Rattle.std.specs.Prelude.{◌≡◌, ◌++◌, IfOk, OnOk, map};
ghost use Rattle.std.specs.Option.{option_copied};
ghost use Rattle.ent_book.specs.Report.{answers_text};
ghost use Rattle.ent_feed.specs.Telling.{all_commits};
ghost use Rattle.ent_meet.specs.Tickets.{commits_seen, fate_after, fate_of, room_tickets_text, standing_text};
ghost use Rattle.ent_meet.specs.Tickets.{ticket_text, told_answers, told_from, told_seen};

use ent_book::{append_answers, append_fate, append_number};
use ent_feed::{Commit, Group};
use ent_room::Room;
use ent_semantics::Fate;
use ent_waiting::{Ended, Ending, Ticket};
use std::alloc::{AllocError, Global};

/// A commit that a group tells, with its number over all epochs, counted from 1.
#[derive(Clone, Copy)]
struct Told<'a> {
    number: u64,
    commit: &'a Commit,
}

/// The commits that groups tell, in order.
fn commits_of<'a>(alloc: Global, groups: &'a [Group]) -> Result<Vec<&'a Commit>, AllocError>
    ensures { IfOk result (λ commits. commits_seen commits.items ≡ all_commits groups.now) }
{
    let mut commits = Vec::new(alloc);
    for group in groups {
        push_all(&mut commits, group.commits.as_slice())?;
    }
    Ok(commits)
}

fn push_all<'a>(commits: &mut Vec<&'a Commit>, more: &'a [Commit]) -> Result<(), AllocError>
    ensures { OnOk result (commits_seen commits.new.items ≡ commits_seen commits.old.items ++ more.now) }
{
    for commit in more {
        commits.push(commit)?;
    }
    Ok(())
}

/// The commit of a ticket.
fn told_of<'a>(commits: &[&'a Commit], ticket: u64) -> Option<Told<'a>>
    ensures { told_seen result ≡ told_from 1 (commits_seen commits.now) ticket }
{
    let mut number = 1u64;
    for commit in commits {
        if commit.ticket.number() == ticket {
            return Some(Told {
                number,
                commit: *commit,
            });
        }
        number += 1;
    }
    None
}

/// How a script ended after so many runs, of which no commit is told.
fn fate_after(ending: Ending, runs: u64) -> Option<Fate>
    ensures { result ≡ fate_after ending runs }
{
    match ending {
        Ending::Committed { number, .. } => Some(Fate::Committed { number, runs }),
        Ending::RolledBack => Some(Fate::RolledBack { runs }),
        Ending::Failed(failure) => Some(Fate::Failed { failure, runs }),
        Ending::GaveUp => Some(Fate::GaveUp { runs }),
        Ending::Withdrawn => None,
    }
}

fn fate_of(told: Option<Told<'_>>, ended: Option<&Ended>, runs: u64) -> Option<Fate>
    ensures { result ≡ fate_of (told_seen told.entry) (option_copied ended.entry) runs }
{
    if let Some(told) = told {
        return Some(Fate::Committed {
            number: told.number,
            runs,
        });
    }
    match ended {
        Some(ended) => fate_after(ended.ending, runs),
        None => None,
    }
}

/// What became of a script, or that it waits.
fn append_standing(
    alloc: Global,
    out: &mut Vec<u8>,
    fate: Option<Fate>,
    runs: u64,
) -> Result<(), AllocError>
    ensures { OnOk result (out.new.items ≡ out.old.items ++ standing_text fate runs) }
{
    match fate {
        Some(fate) => append_fate(alloc, out, fate),
        None => {
            out.extend_from_slice(b"waits ")?;
            append_number(alloc, out, runs)
        }
    }
}

fn append_told(alloc: Global, out: &mut Vec<u8>, told: Option<Told<'_>>) -> Result<(), AllocError>
    ensures { OnOk result (out.new.items ≡ out.old.items ++ answers_text 1 (told_answers (told_seen told.entry))) }
{
    match told {
        Some(told) => append_answers(alloc, out, told.commit.answers.as_slice()),
        None => Ok(()),
    }
}

fn append_ticket(
    alloc: Global,
    out: &mut Vec<u8>,
    room: &Room,
    commits: &[&Commit],
    ticket: u64,
) -> Result<(), AllocError>
    ensures { OnOk result (out.new.items
        ≡ out.old.items ++ ticket_text room.now.admission.list (commits_seen commits.now) ticket) }
{
    let own = Ticket::new(ticket);
    let told = told_of(commits, ticket);
    let runs = room.submissions(own).len() as u64;
    let fate = fate_of(told, room.admission().list().ended(own), runs);
    out.extend_from_slice(b"tx ")?;
    append_number(alloc, out, ticket)?;
    out.push(b' ')?;
    append_standing(alloc, out, fate, runs)?;
    out.push(b'\n')?;
    append_told(alloc, out, told)
}

/// The tickets of a room, from 1.
pub(crate) fn append_tickets(
    alloc: Global,
    out: &mut Vec<u8>,
    room: &Room,
) -> Result<(), AllocError>
    ensures { OnOk result (out.new.items ≡ out.old.items ++ room_tickets_text room.now) }
{
    let commits = commits_of(alloc, room.groups(0))?;
    let count = room.admission().list().next().number().saturating_sub(1);
    for passed in 0..count {
        append_ticket(alloc, out, room, commits.as_slice(), passed + 1)?;
    }
    Ok(())
}
