//! The lines in which the statements of scripts begin.
use ent_group::Tx;
use ent_text::{Keyword, Symbol, TokenView, Tokens};
use std::alloc::{AllocError, Global};
use std::fmt;

/// What a part of a script is.
#[derive(Clone, Copy, Debug, PartialEq, Eq)]
pub(crate) enum Part {
    Statement,
    Commit,
    Rollback,
}

/// Where a part of a script begins: its line, from 1, and its number in the script, from 1.
#[derive(Clone, Copy, Debug)]
pub(crate) struct Spot {
    part: Part,
    line: usize,
    number: usize,
}

/// Where the statements of an input's scripts, and their ends, begin.
#[derive(Debug, Drop)]
pub(crate) struct ScriptLines {
    spots: Vec<Spot>,
    /// Of each script, how many parts the scripts before it have.
    firsts: Vec<usize>,
}

impl ScriptLines {
    /// Those of an input that has no fault.
    pub(crate) fn of(alloc: Global, text: &str) -> Result<Self, AllocError> {
        let mut lines = ScriptLines {
            spots: Vec::new(alloc),
            firsts: Vec::new(alloc),
        };
        let mut counted = LineCounter::new(text);
        let mut begins = false;
        let mut left = Tokens::of(text);
        while let Some(view) = left.front() {
            let sort = sort_of(view);
            counted.go_on(left.start(0));
            begins = lines.take(sort, counted.line, begins)?;
            left = left.tail();
        }
        Ok(lines)
    }

    /// Takes a token of this line, which may begin a part; whether the next one may.
    fn take(&mut self, sort: Sort, line: usize, begins: bool) -> Result<bool, AllocError> {
        match sort {
            Sort::Begin => {
                self.firsts.push(self.spots.len())?;
                return Ok(false);
            }
            Sort::Semicolon => return Ok(!self.firsts.is_empty()),
            Sort::Other(part) => {
                if begins {
                    let number = self.in_script().saturating_add(1);
                    self.spots.push(Spot { part, line, number })?;
                }
            }
        }
        Ok(false)
    }

    /// How many parts the last script has so far.
    fn in_script(&self) -> usize {
        match self.firsts.last() {
            Some(first) => self.spots.len().saturating_sub(*first),
            None => 0,
        }
    }

    /// Where the part of a transaction's script begins that stands behind so many others.
    pub(crate) fn spot(&self, tx: Tx, passed: u64) -> Option<Spot> {
        let script = (tx as usize).checked_sub(1)?;
        let first = self.firsts.get(script).copied()?;
        let place = first.saturating_add(passed as usize);
        self.spots.get(place).copied()
    }
}

impl fmt::Display for Spot {
    fn fmt<W: fmt::Write>(&self, f: &mut fmt::Formatter<W>) -> fmt::Result {
        let line = self.line;
        let number = self.number;
        match self.part {
            Part::Statement => write!(f, "line {line}, statement {number}"),
            Part::Commit => write!(f, "line {line}, COMMIT"),
            Part::Rollback => write!(f, "line {line}, ROLLBACK"),
        }
    }
}

/// What a token is here.
#[derive(Clone, Copy)]
enum Sort {
    Begin,
    Semicolon,
    /// Where a part begins with it, this one.
    Other(Part),
}

fn sort_of(view: &TokenView<'_>) -> Sort {
    match view {
        TokenView::Word(Keyword::Begin) => Sort::Begin,
        TokenView::Word(Keyword::Commit) => Sort::Other(Part::Commit),
        TokenView::Word(Keyword::Rollback) => Sort::Other(Part::Rollback),
        TokenView::Sign(Symbol::Semicolon) => Sort::Semicolon,
        _ => Sort::Other(Part::Statement),
    }
}

/// The line of a place of a text, counted on from place to place.
#[derive(Drop)]
struct LineCounter<'a> {
    text: &'a str,
    place: usize,
    line: usize,
}

impl<'a> LineCounter<'a> {
    fn new(text: &'a str) -> Self {
        LineCounter {
            text,
            place: 0,
            line: 1,
        }
    }

    /// Counts on up to a place behind.
    fn go_on(&mut self, place: usize) {
        let passed = self.text.get(self.place..place).unwrap_or("");
        let breaks = passed.bytes().filter(|byte| *byte == b'\n').count();
        self.line = self.line.saturating_add(breaks);
        self.place = place;
    }
}
