//! A line of a scenario: which call of a driver it is.
use anyhow::{Context, Result, bail};
use ent_driver::Move;
use ent_scenario_files::words::number;

/// A call of a driver.
#[derive(Clone, Copy)]
pub(crate) enum Call<'a> {
    Submit(&'a str),
    Run,
    Make(Move),
    Why(u64),
    Answers(u64),
    Table(&'a str),
    Close,
}

pub(crate) fn read_call(line: &str) -> Result<Call<'_>> {
    match line {
        "run" => Ok(Call::Run),
        "start_run" => Ok(Call::Make(Move::StartRun)),
        "pick" => Ok(Call::Make(Move::Pick)),
        "break_cycle" => Ok(Call::Make(Move::BreakCycle)),
        "end_run" => Ok(Call::Make(Move::EndRun)),
        "close" => Ok(Call::Close),
        _ => {
            let (word, about) = line.split_once(' ').context("a call and what it is about")?;
            read_words(word, about)
        }
    }
}

/// A call and what it is about.
fn read_words<'a>(word: &str, about: &'a str) -> Result<Call<'a>> {
    match word {
        "submit" => Ok(Call::Submit(about)),
        "begin" => Ok(Call::Make(Move::Begin(number(about)?))),
        "why" => Ok(Call::Why(number(about)?)),
        "answers" => Ok(Call::Answers(number(about)?)),
        "table" => Ok(Call::Table(about)),
        _ => bail!("no call is named so"),
    }
}
