//! A text that is written piece by piece.
ghost use Rattle.std.specs.Prelude.{◌≡◌, ◌++◌, false};
ghost use Rattle.ent_picture.specs.Escape.{escaped};

use crate::escape::{escaped, without_noncharacters};
use std::alloc::Global;
use std::fmt::Display;
use std::io::Write;

/// A text that is written piece by piece. Where memory runs out it is marked as cut off.
#[derive(Drop)]
pub(crate) struct Sheet {
    alloc: Global,
    bytes: Vec<u8>,
    is_cut_off: bool,
}

impl Sheet {
    pub(crate) fn new(alloc: Global) -> Self {
        Sheet {
            alloc,
            bytes: Vec::new(alloc),
            is_cut_off: false,
        }
    }

    /// What was written; nothing where memory ran out.
    pub(crate) fn into_whole(self) -> Option<Vec<u8>> {
        let Sheet {
            bytes,
            is_cut_off,
            ..
        } = self;
        if is_cut_off { None } else { Some(bytes) }
    }

    /// Writes markup of the picture's own, in which no text of a trace stands.
    pub(crate) fn put<D: Display + Drop>(&mut self, markup: D) {
        if write!(self.bytes, "{markup}").is_err() {
            self.is_cut_off = true;
        }
    }

    /// Writes a text of a trace, which is UTF-8.
    pub(crate) fn put_text(&mut self, text: &[u8]) {
        match without_noncharacters(self.alloc, text) {
            Ok(text) => self.put_escaped(text.as_slice()),
            Err(_) => self.is_cut_off = true,
        }
    }

    /// Writes a text so that none of its characters is markup.
    fn put_escaped(&mut self, text: &[u8])
        ensures { self.new.is_cut_off ≡ false → self.new.bytes.items ≡ self.old.bytes.items ++ escaped text.now }
    {
        match escaped(self.alloc, text) {
            Ok(escaped) => {
                if self.bytes.extend_from_slice(escaped.as_slice()).is_err() {
                    self.is_cut_off = true;
                }
            }
            Err(_) => self.is_cut_off = true,
        }
    }
}
