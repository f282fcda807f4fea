//! The parts of a reply. What writes here doesn't fail, so that what calls it has no way out of its own: where memory
//! runs out the replies are marked as stopped, and their text is refused at the end.
use anyhow::{Context, Result, ensure};
use ent_value::{Kind, Row, Value, print_row, print_value};
use std::alloc::Global;
use std::fmt::{Debug, Display};
use std::io::Write;

/// What is written of the replies, and whether memory ran out for some of it.
#[derive(Drop)]
pub struct Out {
    bytes: Vec<u8>,
    is_stopped: bool,
}

impl Out {
    /// Nothing yet.
    pub fn new(alloc: Global) -> Self {
        Out {
            bytes: Vec::new(alloc),
            is_stopped: false,
        }
    }

    /// The bytes that were written, where all of them were.
    pub fn into_bytes(self) -> Result<Vec<u8>> {
        let Out { bytes, is_stopped } = self;
        ensure!(!is_stopped, "memory ran out");
        Ok(bytes)
    }

    /// The text that was written, where all of it was.
    pub fn into_text(self) -> Result<String> {
        String::from_utf8(self.into_bytes()?).context("the replies aren't UTF-8")
    }

    /// Marks the replies as stopped.
    pub fn stop(&mut self) {
        self.is_stopped = true;
    }

    fn stop_unless(&mut self, is_written: bool) {
        self.is_stopped = self.is_stopped || !is_written;
    }

    /// Puts bytes at the end.
    pub fn put_bytes(&mut self, bytes: &[u8]) {
        let is_written = self.bytes.extend_from_slice(bytes).is_ok();
        self.stop_unless(is_written);
    }
}

/// Puts a text at the end.
pub fn put(out: &mut Out, text: &str) {
    out.put_bytes(text.as_bytes());
}

/// Puts a number.
pub fn put_number(out: &mut Out, number: usize) {
    put_shown(out, &number);
}

/// Puts a value as a report has it.
pub fn put_value(alloc: Global, out: &mut Out, value: &Value) {
    let is_written = print_value(alloc, &mut out.bytes, value).is_ok();
    out.stop_unless(is_written);
}

/// Puts a row as a report has it.
pub fn put_row(alloc: Global, out: &mut Out, row: &Row) {
    let is_written = print_row(alloc, &mut out.bytes, row).is_ok();
    out.stop_unless(is_written);
}

/// Puts the name of a kind.
pub fn put_kind(out: &mut Out, kind: Kind) {
    put(
        out,
        match kind {
            Kind::Int => "INT",
            Kind::Text => "TEXT",
        },
    )
}

/// Puts a thing as it shows itself.
pub fn put_shown<T: Display>(out: &mut Out, thing: &T) {
    let is_written = write!(out.bytes, "{thing}").is_ok();
    out.stop_unless(is_written);
}

/// Puts a thing as its kind is named.
pub fn put_debugged<T: Debug>(out: &mut Out, thing: &T) {
    let is_written = write!(out.bytes, "{thing:?}").is_ok();
    out.stop_unless(is_written);
}

/// Puts a fault and its place, as `E305 at 26`.
pub fn put_fault(out: &mut Out, code: u16, place: usize) {
    put(out, "E");
    put_shown(out, &code);
    put(out, " at ");
    put_number(out, place);
}

/// Says `yes` or `no`.
pub fn yes_or_no(holds: bool) -> &'static str {
    if holds { "yes" } else { "no" }
}
