//! What was told of transactions, a line each: their numbers, a colon, and what changes for all of them; and what was
//! seen of them.
use anyhow::{Context, Result, anyhow, bail};
use ent_group::{Members, Tx};
use ent_lock::Mode;
use ent_reasons::{Block, Change, LastStatus, Need, Notes, Observation, Observations, Reasons};
use ent_semantics::Failure;
use ent_value::{Name, is_word};
use std::alloc::Global;
use std::str;

/// Stands between the input and what was told.
const TOLD: &str = "== told\n";

/// Why transactions didn't commit, as it is told.
pub(crate) fn reasons_told(alloc: Global, input: &[u8]) -> Result<String> {
    let text = str::from_utf8(input).context("the row isn't UTF-8")?;
    let reasons = reasons_of(alloc, text)?;
    Ok(format!(in alloc; "{reasons}")?)
}

/// Why transactions didn't commit, by an input and by what was told behind it.
fn reasons_of(alloc: Global, text: &str) -> Result<Reasons> {
    let Some((input, told)) = text.split_once(TOLD) else {
        bail!("nothing is told");
    };
    let mut notes = Notes::new(alloc);
    let mut observations = Observations::new(alloc);
    for line in told.lines() {
        match line.strip_prefix("seen ") {
            Some(seen) => see(alloc, &mut observations, seen)?,
            None => take(alloc, &mut notes, line)?,
        }
    }
    Ok(Reasons::of(alloc, input, notes, observations)?)
}

/// Takes a line, as `1 2: starts`; or the line `lost`.
fn take(alloc: Global, notes: &mut Notes, line: &str) -> Result<()> {
    if line == "lost" {
        notes.lose();
        return Ok(());
    }
    let Some((members, change)) = line.split_once(": ") else {
        bail!("no line of what is told: {line}");
    };
    let members = members_of(members)?;
    let words: Vec<&str> = change.split(' ').collect(alloc)?;
    let change = change_of(words.as_slice())?;
    notes.change_each(members.as_slice(), &change);
    Ok(())
}

/// What changes.
fn change_of(words: &[&str]) -> Result<Change> {
    match words {
        ["starts"] => Ok(Change::Starts),
        ["passes"] => Ok(Change::Passes),
        _ => Ok(Change::Stands(last_status_of(words)?)),
    }
}

/// What a transaction was told last.
fn last_status_of(words: &[&str]) -> Result<LastStatus> {
    match words {
        ["free"] => Ok(LastStatus::Free),
        ["posted"] => Ok(LastStatus::Posted),
        ["prepared"] => Ok(LastStatus::Prepared),
        ["committed"] => Ok(LastStatus::Committed),
        ["blocked", holder] => Ok(LastStatus::Blocked(number_of(holder)?)),
        ["held_back", asker, post, first, second] => Ok(LastStatus::HeldBack {
            asker: number_of(asker)?,
            post: number_of(post)? as usize,
            first: number_of(first)?,
            second: number_of(second)?,
        }),
        ["rolled_back", tx] => Ok(LastStatus::RolledBack(number_of(tx)?)),
        ["F1", tx] => Ok(LastStatus::Failed(number_of(tx)?, Failure::Overflow)),
        ["F2", tx] => Ok(LastStatus::Failed(number_of(tx)?, Failure::TableFull)),
        ["no_choice", partners @ ..] => Ok(LastStatus::NoChoice(listed(partners)?)),
        ["broken", cycle @ ..] => Ok(LastStatus::Broken(listed(cycle)?)),
        _ => Err(anyhow!("nothing that can be told")),
    }
}

/// Takes a line of what was seen.
fn see(alloc: Global, observations: &mut Observations, line: &str) -> Result<()> {
    let words: Vec<&str> = line.split(' ').collect(alloc)?;
    match words.as_slice() {
        ["started", members @ ..] => observations.start(&listed(members)?),
        ["settled", members @ ..] => observations.settle(&listed(members)?),
        ["answered", members @ ..] => observations.join(&listed(members)?),
        ["broken", first, second, "group", members @ ..] => {
            let mut cycle = Members::of(number_of(first)?);
            put(&mut cycle, number_of(second)?)?;
            observations.break_deadlock(&cycle, &listed(members)?);
        }
        ["gone", by, members @ ..] => observations.tie(&listed(members)?, number_of(by)?),
        [tx, "of", group, seen @ ..] => {
            let observation = observation_of(alloc, number_of(group)?, seen)?;
            observations.see(number_of(tx)?, Some(observation));
        }
        _ => bail!("nothing that can be seen: {line}"),
    }
    Ok(())
}

/// What is seen of a transaction of a group.
fn observation_of(alloc: Global, group: Tx, words: &[&str]) -> Result<Observation> {
    let mut need = Need::Nothing;
    let mut blocks = Vec::new(alloc);
    match words {
        [] => {}
        ["met", owners @ ..] => need = Need::Met(listed(owners)?),
        ["unmet", number, demand @ ..] => {
            need = Need::Unmet {
                number: number_of(number)? as usize,
                demand: joined(alloc, demand)?,
            }
        }
        ["blocked", holder, table, asked, held] => blocks.push(Block {
            holder: number_of(holder)?,
            table: name_of(alloc, table)?,
            asked: mode_of(asked)?,
            held: mode_of(held)?,
        })?,
        _ => bail!("nothing that can be seen of a transaction"),
    }
    Ok(Observation {
        group,
        need,
        blocks,
    })
}

/// Words with a blank between each two.
fn joined(alloc: Global, words: &[&str]) -> Result<Vec<u8>> {
    let mut text = Vec::new(alloc);
    for word in words {
        if !text.is_empty() {
            text.push(b' ')?;
        }
        text.extend_from_slice(word.as_bytes())?;
    }
    Ok(text)
}

fn name_of(alloc: Global, word: &str) -> Result<Name> {
    if !is_word(word.as_bytes()) {
        bail!("no name: {word}");
    }
    Ok(Name::new(alloc, word.as_bytes())?)
}

fn mode_of(word: &str) -> Result<Mode> {
    match word {
        "shared" => Ok(Mode::Shared),
        "exclusive" => Ok(Mode::Exclusive),
        _ => Err(anyhow!("no mode: {word}")),
    }
}

fn number_of(word: &str) -> Result<Tx> {
    match word.parse::<Tx>() {
        Ok(number) => Ok(number),
        Err(_) => bail!("no number: {word}"),
    }
}

/// Transactions, a number each.
fn members_of(text: &str) -> Result<Members> {
    let mut members = Members::new();
    for word in text.split(' ') {
        put(&mut members, number_of(word)?)?;
    }
    Ok(members)
}

/// Transactions, a word each.
fn listed(words: &[&str]) -> Result<Members> {
    let mut members = Members::new();
    for word in words {
        put(&mut members, number_of(word)?)?;
    }
    Ok(members)
}

fn put(members: &mut Members, tx: Tx) -> Result<()> {
    if members.is_full() {
        bail!("too many transactions");
    }
    members.push(tx);
    Ok(())
}
