//! Who waits for whom, as pairs in a fixed array.
ghost use Rattle.std.specs.Prelude.{◌≡◌, ◌<◌, ◌≤◌, [], ◌∷◌, ◌++◌, length};

use ent_group::{MOST_MEMBERS, Tx};
use std::marker::Model;

/// The most pairs: each member of a run waits for each.
pub(crate) const MOST_PAIRS: usize = MOST_MEMBERS * MOST_MEMBERS;

/// A list of up to [`MOST_PAIRS`] pairs of a member and one that it waits for. It takes no memory.
#[derive(Drop)]
pub(crate) struct Pairs {
    pairs: [(Tx, Tx); MOST_PAIRS],
    len: usize,
}

impl Model for Pairs {
    ghost use Rattle.std.specs.Prelude.{List, ℕ, take, ◌≤◌};
    ghost use Rattle.ent_waits.specs.declared.pairs.TheConstants.{MOST_PAIRS};

    ghost Value = { List (ℕ × ℕ) };

    ghost view = { λ p. take p.len p.pairs };

    ghost invariant = { λ p. p.len ≤ MOST_PAIRS };
}

impl Pairs {
    /// No pair.
    pub(crate) fn new() -> Self
        ensures { result ≡ [] }
    {
        Pairs {
            pairs: [(0, 0); MOST_PAIRS],
            len: 0,
        }
    }

    pub(crate) fn as_slice(&self) -> &[(Tx, Tx)]
        ensures { result.now ≡ self.now }
    {
        &self.pairs[..self.len]
    }

    pub(crate) fn push(&mut self, pair: (Tx, Tx))
        requires { length self.old < MOST_PAIRS }
        ensures { self.new ≡ self.old ++ pair ∷ [] }
    {
        self.pairs[self.len] = pair;
        self.len += 1;
    }
}
