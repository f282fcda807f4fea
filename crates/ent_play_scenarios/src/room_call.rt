//! A line of a scenario: which call of a room it is.
use anyhow::{Context, Result, bail, ensure};
use ent_room::Stay;
use ent_scenario_files::words::{index, number};
use ent_tree::{MOST_RUNS, Runs};
use ent_waiting::Limits;

/// How a room is opened.
#[derive(Clone, Copy)]
pub(crate) struct Open {
    pub(crate) epoch: u64,
    pub(crate) next: u64,
    pub(crate) next_group: u64,
    pub(crate) limits: Limits,
}

/// For how long a script waits, as a line says it.
#[derive(Clone, Copy)]
pub(crate) enum Wait {
    AsWritten,
    Batches(u64),
    UntilWithdrawn,
}

impl Wait {
    /// The same, as a room takes it.
    pub(crate) fn stay(self) -> Result<Stay> {
        Ok(match self {
            Wait::AsWritten => Stay::AsWritten,
            Wait::UntilWithdrawn => Stay::UntilWithdrawn,
            Wait::Batches(most) => Stay::Batches(runs(most)?),
        })
    }
}

fn runs(most: u64) -> Result<Runs> {
    if most == 0 || most > MOST_RUNS {
        bail!("so long nobody waits");
    }
    Ok(Runs::new(most))
}

/// How a script comes in whose text follows.
#[derive(Clone, Copy)]
pub(crate) enum Entrance {
    /// It is put so many times, with a step after each of them where it steps.
    Put {
        times: i64,
        wait: Wait,
        steps: bool,
    },
    /// It waited in an earlier process under this ticket, and was in so many batches.
    Restore {
        ticket: u64,
        batches: u64,
        wait: Wait,
    },
}

/// A call of a room that is open.
#[derive(Clone, Copy)]
pub(crate) enum Call<'a> {
    Enter(Entrance),
    Step,
    UntilIdle,
    Further,
    Withdraw(u64),
    /// With the names of the drained tables.
    Turn(&'a str),
    /// The same, where the report is told.
    TurnReport(&'a str),
    State(u64),
    Submissions(u64),
    /// The groups from a number on.
    Groups(u64),
    /// The groups up to a number are kept no longer.
    Settled(u64),
    Table(&'a str),
    Book,
    BookReport,
    Waiting,
    Fates,
}

/// `open EPOCH NEXT WAITERS ENDED`, where the first group has the number 1, or `open EPOCH NEXT WAITERS ENDED GROUP`
pub(crate) fn read_open(line: &str) -> Result<Open> {
    let about = line.strip_prefix("open ").context("no room is open")?;
    let (epoch, rest) = about.split_once(' ').context("the next ticket")?;
    let (next, rest) = rest.split_once(' ').context("the most waiters")?;
    let (waiters, rest) = rest.split_once(' ').context("the most ended tickets")?;
    let (ended, group) = rest.split_once(' ').unwrap_or((rest, "1"));
    Ok(Open {
        epoch: number(epoch)?,
        next: number(next)?,
        next_group: number(group)?,
        limits: Limits {
            most_waiters: index(waiters)?,
            most_ended: index(ended)?,
        },
    })
}

pub(crate) fn read_call(line: &str) -> Result<Call<'_>> {
    match line {
        "put" => put(1, "", false),
        "step" => Ok(Call::Step),
        "until_idle" => Ok(Call::UntilIdle),
        "further" => Ok(Call::Further),
        "turn" => Ok(Call::Turn("")),
        "turn_report" => Ok(Call::TurnReport("")),
        "book" => Ok(Call::Book),
        "book_report" => Ok(Call::BookReport),
        "waiting" => Ok(Call::Waiting),
        "fates" => Ok(Call::Fates),
        _ => {
            let (word, about) = line.split_once(' ').context("a call and what it is about")?;
            read_words(word, about)
        }
    }
}

/// A call and what it is about.
fn read_words<'a>(word: &str, about: &'a str) -> Result<Call<'a>> {
    match word {
        "put" => put(1, about, false),
        "times" => times(about, false),
        "each" => times(about, true),
        "restore" => restore(about),
        "withdraw" => Ok(Call::Withdraw(number(about)?)),
        "turn" => Ok(Call::Turn(about)),
        "turn_report" => Ok(Call::TurnReport(about)),
        "state" => Ok(Call::State(number(about)?)),
        "submissions" => Ok(Call::Submissions(number(about)?)),
        "groups" => Ok(Call::Groups(number(about)?)),
        "settled" => Ok(Call::Settled(number(about)?)),
        "table" => Ok(Call::Table(about)),
        _ => bail!("no call is named so"),
    }
}

/// `put STAY`
fn put<'a>(times: i64, about: &str, steps: bool) -> Result<Call<'a>> {
    ensure!(times > 0, "it has to be put once or more");
    let wait = read_wait(about)?;
    Ok(Call::Enter(Entrance::Put { times, wait, steps }))
}

/// `times N STAY`, or `each N STAY`
fn times<'a>(about: &str, steps: bool) -> Result<Call<'a>> {
    match about.split_once(' ') {
        Some((times, stay)) => put(integer(times)?, stay, steps),
        None => put(integer(about)?, "", steps),
    }
}

/// `restore TICKET BATCHES STAY`
fn restore<'a>(about: &str) -> Result<Call<'a>> {
    let (own, rest) = about.split_once(' ').context("the batches")?;
    match rest.split_once(' ') {
        Some((batches, about)) => restored(own, batches, about),
        None => restored(own, rest, ""),
    }
}

fn restored<'a>(own: &str, batches: &str, about: &str) -> Result<Call<'a>> {
    Ok(Call::Enter(Entrance::Restore {
        ticket: number(own)?,
        batches: number(batches)?,
        wait: read_wait(about)?,
    }))
}

/// Nothing, `for N`, or `until withdrawn`
fn read_wait(about: &str) -> Result<Wait> {
    match about {
        "" => Ok(Wait::AsWritten),
        "until withdrawn" => Ok(Wait::UntilWithdrawn),
        _ => {
            let most = about.strip_prefix("for ").context("how long it waits")?;
            Ok(Wait::Batches(number(most)?))
        }
    }
}

pub(crate) fn integer(word: &str) -> Result<i64> {
    match word.parse::<i64>() {
        Ok(number) => Ok(number),
        Err(_) => bail!("a number is wanted"),
    }
}
