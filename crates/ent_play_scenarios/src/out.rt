//! Lines that are written, until something stops them. A writer here doesn't fail: it marks the lines as stopped.
use anyhow::{Context, Result, bail};
use ent_group::Members;
use ent_trace::WrittenText;
use ent_value::Name;
use std::alloc::Global;

/// Why a scenario isn't played on.
#[derive(Clone, Copy)]
pub(crate) enum Stop {
    Memory,
    /// What was made again for want of memory wants it again.
    Twice,
    Line,
    Number,
    Job,
    Closed,
    Play,
}

impl Stop {
    fn words(self) -> &'static str {
        match self {
            Stop::Memory => "out of memory",
            Stop::Twice => "memory ran out twice",
            Stop::Line => "this is no line of a scenario",
            Stop::Number => "a number is wanted",
            Stop::Job => "no job of this number was lent",
            Stop::Closed => "the core was closed before this line",
            Stop::Play => "the events can't be played at once",
        }
    }
}

/// Lines, the number of the line of the scenario that they are of, and why they were stopped. They are stopped too
/// where memory ran out for one of them.
#[derive(Drop)]
pub(crate) struct Out {
    pub(crate) text: WrittenText,
    line: usize,
    stop: Option<Stop>,
}

impl Out {
    pub(crate) fn new(alloc: Global) -> Self {
        Out {
            text: WrittenText::new(alloc),
            line: 0,
            stop: None,
        }
    }

    pub(crate) fn bytes(&self) -> &[u8] {
        self.text.bytes()
    }

    /// What was written; or the line at which it was stopped, and why.
    pub(crate) fn into_text(self) -> Result<String> {
        let told = self.told();
        let Out { text, line, .. } = self;
        if let Some(stop) = told {
            bail!("line {line}: {}", stop.words());
        }
        String::from_utf8(text.into_bytes()).context("the replies aren't UTF-8")
    }

    /// What is written next is of the next line, unless all was stopped before.
    pub(crate) fn next_line(&mut self) {
        if !self.is_stopped() {
            self.line = self.line.saturating_add(1);
        }
    }

    /// Why they were stopped.
    fn told(&self) -> Option<Stop> {
        match self.stop {
            None if self.text.is_cut_off() => Some(Stop::Memory),
            stop => stop,
        }
    }

    pub(crate) fn is_stopped(&self) -> bool {
        self.told().is_some()
    }

    /// The first stop is the one that is told.
    pub(crate) fn stop(&mut self, stop: Stop) {
        if !self.is_stopped() {
            self.stop = Some(stop);
        }
    }

    pub(crate) fn put_bytes(&mut self, bytes: &[u8]) {
        self.text.put_bytes(bytes);
    }

    pub(crate) fn put(&mut self, text: &str) {
        self.text.put(text);
    }

    pub(crate) fn put_count(&mut self, count: u64) {
        self.text.put_count(count);
    }

    /// A word, a blank and a number.
    pub(crate) fn put_number(&mut self, word: &str, number: u64) {
        self.text.put_number(word, number);
    }

    /// A word, and each transaction behind a blank.
    pub(crate) fn put_members(&mut self, word: &str, members: &Members) {
        self.text.put_members(word, members);
    }

    /// A line of a fault and its place, as `E305 at 26`.
    pub(crate) fn put_fault_line(&mut self, code: u16, place: usize) {
        self.text.put_fault(code, place);
        self.text.put("\n");
    }

    pub(crate) fn put_name(&mut self, name: &Name) {
        self.text.put_name(name);
    }
}
