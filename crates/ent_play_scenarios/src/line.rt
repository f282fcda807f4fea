//! A line behind `== events`: what it asks for.
use crate::out::Stop;
use ent_core::Event;
use ent_group::Tx;

/// Whose result is handed in: that of the job of a number, counted from 1 as jobs are lent. Elsewhere, it is that of
/// the job which the same events lend over the same tables without their opening rows.
#[derive(Clone, Copy)]
pub(crate) struct Handed {
    pub(crate) job: usize,
    pub(crate) is_elsewhere: bool,
}

/// What is told without an event.
#[derive(Clone, Copy)]
pub(crate) enum LookUp<'a> {
    Running,
    Members,
    Dormant,
    Group(Tx),
    Standing(Tx),
    Answers(Tx),
    Table(&'a str),
    Entry(usize),
}

/// What a line asks for.
#[derive(Drop)]
pub(crate) enum Line<'a> {
    /// An event that says all itself.
    Event(Event),
    Finish(Handed),
    JoinAnswer(Handed),
    Submit(&'a str),
    LookUp(LookUp<'a>),
    Close,
}

pub(crate) fn read_line(line: &str) -> Result<Line<'_>, Stop> {
    match line {
        "start_run" => Ok(Line::Event(Event::StartRun)),
        "pick" => Ok(Line::Event(Event::Pick)),
        "break_cycle" => Ok(Line::Event(Event::BreakCycle)),
        "end_run" => Ok(Line::Event(Event::EndRun)),
        "recall" => Ok(Line::Event(Event::Recall)),
        "close" => Ok(Line::Close),
        "running" => Ok(Line::LookUp(LookUp::Running)),
        "members" => Ok(Line::LookUp(LookUp::Members)),
        "dormant" => Ok(Line::LookUp(LookUp::Dormant)),
        _ => match line.split_once(' ') {
            Some((word, about)) => read_words(word, about),
            None => Err(Stop::Line),
        },
    }
}

/// A line of a word and what it is about.
fn read_words<'a>(word: &str, about: &'a str) -> Result<Line<'a>, Stop> {
    match word {
        "begin" => Ok(Line::Event(Event::Begin(number(about)?))),
        "finish" => Ok(Line::Finish(read_handed(about)?)),
        "join_answer" => Ok(Line::JoinAnswer(read_handed(about)?)),
        "submit" => Ok(Line::Submit(about)),
        "group" => Ok(Line::LookUp(LookUp::Group(number(about)?))),
        "standing" => Ok(Line::LookUp(LookUp::Standing(number(about)?))),
        "answers" => Ok(Line::LookUp(LookUp::Answers(number(about)?))),
        "table" => Ok(Line::LookUp(LookUp::Table(about))),
        "entry" => Ok(Line::LookUp(LookUp::Entry(index(about)?))),
        _ => Err(Stop::Line),
    }
}

fn read_handed(about: &str) -> Result<Handed, Stop> {
    let (job, is_elsewhere) = match about.strip_suffix(" elsewhere") {
        Some(job) => (job, true),
        None => (about, false),
    };
    Ok(Handed {
        job: index(job)?,
        is_elsewhere,
    })
}

fn number(word: &str) -> Result<u64, Stop> {
    match word.parse::<u64>() {
        Ok(number) => Ok(number),
        Err(_) => Err(Stop::Number),
    }
}

pub(crate) fn index(word: &str) -> Result<usize, Stop> {
    match word.parse::<usize>() {
        Ok(index) => Ok(index),
        Err(_) => Err(Stop::Number),
    }
}
