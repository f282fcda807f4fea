//! The trace of a schedule: each event and its reply, a line each.
ghost use Rattle.std.specs.Prelude.{◌≡◌};

use crate::event::put_event;
use crate::reply::put_reply;
use crate::text::WrittenText;
use ent_eval::Done;
use ent_sched::{Core, MadeEvent, Reply, Watcher};
use std::alloc::Global;
use std::io::Eprint;
use std::str;

/// Lines are kept up to so many bytes, and then written at once.
const MOST_KEPT: usize = 65_536;

/// Writes each event and its reply to standard error, a line each. Whether all were written is told at the end. Each
/// result has to be that of the job that was lent last, as the schedule hands them in.
#[derive(Drop)]
pub struct Trace<'a, E> {
    alloc: Global,
    to: &'a E,
    text: WrittenText,
    lent: u64,
    has_failed: bool,
}

impl<'a, E: Eprint> Trace<'a, E> {
    /// A trace of what comes from now on, where no job was lent yet.
    pub fn new(alloc: Global, to: &'a E) -> Self {
        Trace {
            alloc,
            to,
            text: WrittenText::new(alloc),
            lent: 0,
            has_failed: false,
        }
    }

    fn write_kept(&mut self) {
        let is_written = match str::from_utf8(self.text.bytes()) {
            Ok(text) => self.to.eprint(text).is_ok(),
            Err(_) => false,
        };
        if !is_written || self.text.is_cut_off() {
            self.has_failed = true;
        }
        self.text.clear();
    }

    /// Writes what is kept still. Whether all lines were written.
    pub fn close(self) -> bool {
        let mut trace = self;
        trace.write_kept();
        !trace.has_failed
    }
}

impl<E: Eprint> Watcher for Trace<'_, E> {
    type Mark = u64;

    // What is written isn't said here.
    ghost hears = { λ old heard new. Unit {0} };

    ghost marks = { λ mark done. Unit {0} };

    fn listens(&self) -> bool {
        true
    }

    /// The number of the job that was lent last.
    fn mark(&self, _done: &Done) -> u64 {
        self.lent
    }

    fn tell(&mut self, told: MadeEvent<u64>, reply: &Reply, _core: &Core)
        ensures { self.new.alloc ≡ self.old.alloc }
    {
        put_event(&mut self.text, &told);
        if let Reply::Lent(_) = reply {
            self.lent = self.lent.saturating_add(1);
        }
        put_reply(self.alloc, &mut self.text, reply, self.lent);
        if self.text.bytes().len() >= MOST_KEPT {
            self.write_kept();
        }
    }
}
