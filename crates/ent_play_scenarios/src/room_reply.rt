//! What a room answers, as lines of text.
use anyhow::{Context, Result, bail};
use ent_book::{append_table, write_report_2};
use ent_bound::BindingFault;
use ent_feed::{Group, append_line};
use ent_prepare::PrepareFault;
use ent_rel::Table;
use ent_renewal::FinishedBook;
use ent_room::{EpochBook, NotPut, NotPutBack, NotStepped, NotTurned, State, Stepped};
use ent_value::{Name, Refusal, Watched};
use ent_waiting::{Ending, NotRestored, NotWithdrawn, Submission, Ticket};
use std::alloc::Global;

/// A value can't be bound.
pub(crate) fn not_bound(alloc: Global, refusal: Refusal<BindingFault>) -> Result<String> {
    match refusal {
        Refusal::Memory => bail!("no memory"),
        Refusal::Fault(fault) => Ok(format!(in alloc; "{fault}\n")?),
    }
}

pub(crate) fn put(alloc: Global, answered: Result<Ticket, Refusal<NotPut>>) -> Result<String> {
    match answered {
        Ok(ticket) => Ok(format!(in alloc; "ticket {}\n", ticket.number())?),
        Err(Refusal::Memory) => bail!("memory ran out twice"),
        Err(Refusal::Fault(NotPut::Full)) => Ok(format!(in alloc; "full\n")?),
        Err(Refusal::Fault(NotPut::Faulty(found))) => faulty(alloc, found),
    }
}

pub(crate) fn restored(alloc: Global, answered: Result<(), Refusal<NotPutBack>>) -> Result<String> {
    match answered {
        Ok(()) => Ok(format!(in alloc; "restored\n")?),
        Err(Refusal::Memory) => bail!("memory ran out twice"),
        Err(Refusal::Fault(NotPutBack::Refused(refused))) => not_restored(alloc, refused),
        Err(Refusal::Fault(NotPutBack::Faulty(found))) => faulty(alloc, found),
    }
}

fn not_restored(alloc: Global, refused: NotRestored) -> Result<String> {
    Ok(match refused {
        NotRestored::NoRoom => format!(in alloc; "full\n")?,
        NotRestored::Used => format!(in alloc; "used\n")?,
    })
}

fn faulty(alloc: Global, fault: PrepareFault) -> Result<String> {
    Ok(format!(in alloc; "{fault}\n")?)
}

pub(crate) fn withdrawn(
    alloc: Global,
    answered: Result<(), Refusal<NotWithdrawn>>,
) -> Result<String> {
    Ok(match answered {
        Ok(()) => format!(in alloc; "withdrawn\n")?,
        Err(Refusal::Memory) => bail!("memory ran out twice"),
        Err(Refusal::Fault(NotWithdrawn::Absent)) => format!(in alloc; "absent\n")?,
        Err(Refusal::Fault(NotWithdrawn::InBatch)) => format!(in alloc; "in a batch\n")?,
    })
}

pub(crate) fn stepped(
    alloc: Global,
    answered: Result<Stepped, Refusal<NotStepped>>,
) -> Result<String> {
    Ok(match answered {
        Ok(Stepped::Idle) => format!(in alloc; "idle\n")?,
        Ok(Stepped::Searched) => format!(in alloc; "searched\n")?,
        Ok(Stepped::Ran) => format!(in alloc; "ran\n")?,
        Err(Refusal::Memory) => bail!("memory ran out twice"),
        Err(Refusal::Fault(NotStepped::TooManyRows)) => format!(in alloc; "E407\n")?,
        Err(Refusal::Fault(NotStepped::NoNumber)) => format!(in alloc; "no number\n")?,
    })
}

/// There is nothing to do, after runs were made in so many steps.
pub(crate) fn idle(alloc: Global, ran: u64) -> Result<String> {
    Ok(format!(in alloc; "idle, ran {ran}\n")?)
}

/// An epoch ended, whose book is kept; with its report, where that is told.
pub(crate) fn turned(alloc: Global, kept: Option<&EpochBook>, is_told: bool) -> Result<String> {
    match kept {
        Some(last) if is_told => report(alloc, &last.book),
        Some(last) => Ok(format!(in alloc; "turned, commits {}\n", commits(&last.book))?),
        None => Ok(format!(in alloc; "no book\n")?),
    }
}

pub(crate) fn not_turned(alloc: Global, refusal: Refusal<NotTurned>) -> Result<String> {
    Ok(match refusal {
        Refusal::Memory => bail!("memory ran out twice"),
        Refusal::Fault(NotTurned::Busy) => format!(in alloc; "busy\n")?,
        Refusal::Fault(NotTurned::TooManyRows) => format!(in alloc; "E407\n")?,
        Refusal::Fault(NotTurned::NoNumber) => format!(in alloc; "no number\n")?,
    })
}

fn commits(book: &FinishedBook) -> usize {
    book.book().journal.as_slice().len()
}

/// The lines of a report of version 2.
fn report(alloc: Global, book: &FinishedBook) -> Result<String> {
    let mut writer = Watched::new(Vec::new(alloc));
    match write_report_2(alloc, book.book(), &mut writer) {
        Ok(()) => text_of(writer.into_inner()),
        Err(_) => bail!("no memory"),
    }
}

fn text_of(bytes: Vec<u8>) -> Result<String> {
    String::from_utf8(bytes).context("the replies aren't UTF-8")
}

/// The epoch that ended last, and how many scripts committed in it.
pub(crate) fn book(alloc: Global, kept: Option<&EpochBook>) -> Result<String> {
    match kept {
        Some(last) => Ok(format!(in alloc;
            "epoch {}, commits {}\n",
            last.epoch,
            commits(&last.book)
        )?),
        None => Ok(format!(in alloc; "no book\n")?),
    }
}

pub(crate) fn book_report(alloc: Global, kept: Option<&EpochBook>) -> Result<String> {
    match kept {
        Some(last) => report(alloc, &last.book),
        None => Ok(format!(in alloc; "no book\n")?),
    }
}

pub(crate) fn waiting(alloc: Global, count: usize) -> Result<String> {
    Ok(format!(in alloc; "waiting {count}\n")?)
}

pub(crate) fn table(alloc: Global, name: &Name, found: Option<&Table>) -> Result<String> {
    match found {
        Some(table) => table_lines(alloc, name, table),
        None => Ok(format!(in alloc; "no table\n")?),
    }
}

/// The lines of a table, as a report has them.
fn table_lines(alloc: Global, name: &Name, table: &Table) -> Result<String> {
    let mut lines = Vec::new(alloc);
    append_table(alloc, &mut lines, name, table)?;
    text_of(lines)
}

pub(crate) fn state(alloc: Global, state: State) -> Result<String> {
    Ok(match state {
        State::Waits { batches } => format!(in alloc; "waits, batches {batches}\n")?,
        State::Lonely { demand } => format!(in alloc; "lonely, demand {demand}\n")?,
        State::NoMeeting => format!(in alloc; "no meeting\n")?,
        State::Cut => format!(in alloc; "cut\n")?,
        State::InBatch => format!(in alloc; "in a batch\n")?,
        State::Ended(ended) => ending(alloc, ended)?,
        State::Unknown => format!(in alloc; "unknown\n")?,
    })
}

fn ending(alloc: Global, ending: Ending) -> Result<String> {
    Ok(match ending {
        Ending::Committed { epoch, number } => format!(in alloc; "committed {epoch}.{number}\n")?,
        Ending::RolledBack => format!(in alloc; "rolled back\n")?,
        Ending::Failed(failure) => format!(in alloc; "failed {}\n", failure.name())?,
        Ending::GaveUp => format!(in alloc; "gave up\n")?,
        Ending::Withdrawn => format!(in alloc; "withdrawn\n")?,
    })
}

/// The line of each group; that there is none, where there is none.
pub(crate) fn groups(alloc: Global, groups: &[Group]) -> Result<String> {
    if groups.is_empty() {
        return Ok(format!(in alloc; "no group\n")?);
    }
    let mut lines = Vec::new(alloc);
    for group in groups {
        append_line(alloc, &mut lines, group)?;
    }
    text_of(lines)
}

/// Groups are kept no longer; the number of the next one.
pub(crate) fn settled(alloc: Global, next: u64) -> Result<String> {
    Ok(format!(in alloc; "next group {next}\n")?)
}

pub(crate) fn submissions(alloc: Global, submissions: &[Submission]) -> Result<String> {
    let mut text = format!(in alloc; "submissions")?;
    for submission in submissions {
        let one = format!(in alloc; " {}.{}", submission.epoch, submission.tx)?;
        text.push_str(one.as_str())?;
    }
    text.push_str("\n")?;
    Ok(text)
}
