//! A few members by number, in a fixed array.
ghost use Rattle.std.specs.Prelude.{◌≡◌, ◌<◌, ◌≤◌, ◌+◌, ◌++◌, ◌∷◌, [], length, take, insert};
ghost use Rattle.ent_protocol.specs.State.{inserted};
ghost use Rattle.ent_members.specs.RunAttempts.{number_of, numbers_in};
ghost use Rattle.ent_members.specs.Order.{place_in};

use ent_group::{MOST_MEMBERS, Members, Tx};
use std::marker::Model;

/// A member that is to leave the run: its number, and the runs that it took part in.
#[derive(Clone, Copy, Debug)]
pub struct RunAttempt {
    pub tx: Tx,
    pub attempt: u64,
}

/// A list of up to [`MOST_MEMBERS`] members that are to leave the run. It takes no memory.
#[derive(Debug, Drop)]
pub struct RunAttempts {
    run_attempts: [RunAttempt; MOST_MEMBERS],
    len: usize,
}

impl Model for RunAttempts {
    ghost use Rattle.std.specs.Prelude.{List, take, ◌≤◌};
    ghost use Rattle.ent_group.specs.declared.members.TheConstants.{MOST_MEMBERS};
    ghost use Rattle.ent_members.specs.declared.run_attempts.RunAttempt.{RunAttempt as Entry};

    ghost Value = { List Entry };

    ghost view = { λ l. take l.len l.run_attempts };

    ghost invariant = { λ l. l.len ≤ MOST_MEMBERS };
}

impl RunAttempts {
    /// Nobody.
    pub fn new() -> Self
        ensures { result ≡ [] }
    {
        let nobody = RunAttempt { tx: 0, attempt: 0 };
        RunAttempts {
            run_attempts: [nobody; MOST_MEMBERS],
            len: 0,
        }
    }

    /// Puts one at the end.
    pub fn push(&mut self, run_attempt: RunAttempt)
        requires { length self.old < MOST_MEMBERS }
        ensures { self.new ≡ self.old ++ run_attempt ∷ [] }
    {
        self.run_attempts[self.len] = run_attempt;
        self.len += 1;
    }

    /// Puts one in by number, before the first of a greater one.
    pub fn insert(&mut self, run_attempt: RunAttempt)
        requires { length self.old < MOST_MEMBERS }
        ensures { self.new ≡ inserted number_of run_attempt self.old }
    {
        let at = place_for(self.as_slice(), run_attempt.tx);
        put_at(&mut self.run_attempts, self.len, at, run_attempt);
        self.len += 1;
    }

    /// Those who leave, by number.
    pub fn as_slice(&self) -> &[RunAttempt]
        ensures list { result.now ≡ self.now }
        ensures bound { length self.now ≤ MOST_MEMBERS }
    {
        &self.run_attempts[..self.len]
    }

    /// Their numbers.
    pub fn numbers(&self) -> Members
        ensures { result ≡ numbers_in self.now }
    {
        numbers_of(self.as_slice())
    }
}

/// The index of the first of a greater number, or else the length.
fn place_for(run_attempts: &[RunAttempt], tx: Tx) -> usize
    ensures { result ≡ place_in number_of run_attempts.now tx }
{
    for (i, run_attempt) in run_attempts.iter().enumerate() {
        if tx < run_attempt.tx {
            return i;
        }
    }
    run_attempts.len()
}

/// Puts one in at an index of the first `len`, which become one more.
fn put_at(run_attempts: &mut [RunAttempt], len: usize, at: usize, run_attempt: RunAttempt)
    requires room { len < length run_attempts.old }
    requires place { at ≤ len }
    ensures { take (len + 1) run_attempts.new ≡ insert (take len run_attempts.old) at run_attempt }
{
    run_attempts[len] = run_attempt;
    run_attempts[at..len + 1].rotate_right(1);
}

fn numbers_of(run_attempts: &[RunAttempt]) -> Members
    requires { length run_attempts.now ≤ MOST_MEMBERS }
    ensures { result ≡ numbers_in run_attempts.now }
{
    let mut numbers = Members::new();
    for run_attempt in run_attempts {
        numbers.push(run_attempt.tx);
    }
    numbers
}
