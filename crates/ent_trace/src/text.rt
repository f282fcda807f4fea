//! Text that is written piece by piece.
use ent_group::{Members, Tx};
use ent_value::{Name, Row, Value, print_row, print_value};
use std::alloc::Global;
use std::io::Write;

/// Text that is written piece by piece. Where memory runs out it is marked as cut off.
#[derive(Drop)]
pub struct WrittenText {
    bytes: Vec<u8>,
    is_cut_off: bool,
}

impl WrittenText {
    pub fn new(alloc: Global) -> Self {
        WrittenText {
            bytes: Vec::new(alloc),
            is_cut_off: false,
        }
    }

    pub fn bytes(&self) -> &[u8] {
        self.bytes.as_slice()
    }

    pub fn into_bytes(self) -> Vec<u8> {
        let WrittenText { bytes, .. } = self;
        bytes
    }

    /// Whether memory ran out for a piece of it.
    pub fn is_cut_off(&self) -> bool {
        self.is_cut_off
    }

    /// Takes back all that was written; the mark stays.
    pub fn clear(&mut self) {
        self.bytes.clear();
    }

    fn mark_unless(&mut self, is_written: bool) {
        if !is_written {
            self.is_cut_off = true;
        }
    }

    pub fn put_bytes(&mut self, bytes: &[u8]) {
        let is_written = self.bytes.extend_from_slice(bytes).is_ok();
        self.mark_unless(is_written);
    }

    pub fn put(&mut self, text: &str) {
        self.put_bytes(text.as_bytes());
    }

    pub fn put_count(&mut self, count: u64) {
        let is_written = write!(self.bytes, "{count}").is_ok();
        self.mark_unless(is_written);
    }

    /// A word, a blank and a number.
    pub fn put_number(&mut self, word: &str, number: u64) {
        self.put(word);
        self.put(" ");
        self.put_count(number);
    }

    /// A word, and each transaction behind a blank.
    pub fn put_members(&mut self, word: &str, members: &Members) {
        self.put(word);
        self.put_transactions(members.as_slice());
    }

    fn put_transactions(&mut self, transactions: &[Tx]) {
        for tx in transactions {
            self.put_number("", *tx);
        }
    }

    /// A fault and its place, as `E305 at 26`.
    pub fn put_fault(&mut self, code: u16, place: usize) {
        self.put("E");
        self.put_count(code as u64);
        self.put_number(" at", place as u64);
    }

    pub fn put_name(&mut self, name: &Name) {
        self.put_bytes(name.as_bytes());
    }

    pub fn put_value(&mut self, alloc: Global, value: &Value) {
        let is_written = print_value(alloc, &mut self.bytes, value).is_ok();
        self.mark_unless(is_written);
    }

    pub fn put_row(&mut self, alloc: Global, row: &Row) {
        let is_written = print_row(alloc, &mut self.bytes, row).is_ok();
        self.mark_unless(is_written);
    }
}
