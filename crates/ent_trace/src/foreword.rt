//! A watcher that says something before anything runs.
ghost use Rattle.std.specs.Prelude.{◌≡◌, None};

use ent_eval::Done;
use ent_sched::{Core, MadeEvent, Reply, Watcher};
use std::fmt::Display;
use std::io::Eprint;

/// Writes something to standard error as soon as it is told of an event, and nothing after that. What isn't told of any
/// event, as an input that is refused, has no foreword.
#[derive(Drop)]
pub struct Foreword<'a, E, D> {
    to: &'a E,
    word: Option<D>,
}

impl<'a, E: Eprint, D: Display + Drop> Foreword<'a, E, D> {
    pub fn new(to: &'a E, word: D) -> Self {
        Foreword {
            to,
            word: Some(word),
        }
    }
}

impl<E: Eprint, D: Display + Drop> Watcher for Foreword<'_, E, D> {
    type Mark = ();

    // What is written isn't said here.
    ghost hears = { λ old heard new. Unit {0} };

    ghost marks = { λ mark done. Unit {0} };

    fn listens(&self) -> bool {
        true
    }

    fn mark(&self, _done: &Done) {}

    fn tell(&mut self, _told: MadeEvent<()>, _reply: &Reply, _core: &Core)
        ensures { self.new.word ≡ None }
    {
        if let Some(word) = self.word.take() {
            let _ = eprint!(self.to; "{word}");
        }
    }
}
