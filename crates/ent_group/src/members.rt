//! A few transactions, in a fixed array.
ghost use Rattle.std.specs.Prelude.{◌≡◌, ◌<◌, ◌≤◌, ◌==◌, ◌∷◌, ◌++◌, ◌↔◌, [], length, IsTrue, Contains, slice_get};
ghost use Rattle.std.specs.Prelude.{false};
ghost use Rattle.std.specs.List.{list_any};
ghost use Rattle.std.specs.Slice.Iter.{iter_rest};
ghost use Rattle.std.specs.Cmp.Rules.{comparing};
ghost use Rattle.std.specs.Cmp.Lexicographic.{pointwise};
ghost use Rattle.std.proofs.Common.{rules};

use std::marker::Model;
use std::slice::Iter;

/// The number of a transaction.
pub type Tx = u64;

/// The most transactions that a run has, and a list of its members holds.
pub const MOST_MEMBERS: usize = 64;

/// A list of up to [`MOST_MEMBERS`] transactions. It takes no memory, so no call of it can fail.
#[derive(Debug, Drop)]
pub struct Members {
    numbers: [Tx; MOST_MEMBERS],
    len: usize,
}

impl Model for Members {
    ghost use Rattle.std.specs.Prelude.{List, ℕ, take, ◌≤◌};
    ghost use Rattle.ent_group.specs.declared.members.TheConstants.{MOST_MEMBERS};

    ghost Value = { List ℕ };

    ghost view = { λ m. take m.len m.numbers };

    ghost invariant = { λ m. m.len ≤ MOST_MEMBERS };
}

impl Members {
    /// The list of no transaction.
    pub fn new() -> Self
        ensures { result ≡ [] }
    {
        Members {
            numbers: [0; MOST_MEMBERS],
            len: 0,
        }
    }

    /// The list of one transaction.
    pub fn of(tx: Tx) -> Self
        ensures { result ≡ tx ∷ [] }
    {
        let mut members = Members::new();
        members.push(tx);
        members
    }

    pub fn len(&self) -> usize
        ensures len { result ≡ length self.now }
        ensures bound { length self.now ≤ MOST_MEMBERS }
    {
        self.as_slice().len()
    }

    pub fn is_empty(&self) -> bool
        ensures { result ≡ (length self.now == 0) }
    {
        self.len == 0
    }

    /// Whether the list holds [`MOST_MEMBERS`] transactions, so that none can be put to it.
    pub fn is_full(&self) -> bool
        ensures full { IsTrue result ↔ (length self.now ≡ MOST_MEMBERS) }
        ensures bound { length self.now ≤ MOST_MEMBERS }
    {
        self.len == MOST_MEMBERS
    }

    /// Puts a transaction at the end; [`is_full`](Members::is_full) tests whether there is room.
    pub fn push(&mut self, tx: Tx)
        requires { length self.old < MOST_MEMBERS }
        ensures { self.new ≡ self.old ++ tx ∷ [] }
    {
        self.numbers[self.len] = tx;
        self.len += 1;
    }

    pub fn contains(&self, tx: Tx) -> bool
        ensures member { IsTrue result ↔ Contains self.now tx }
        ensures value { result ≡ list_any (λ y. y == tx) self.now }
    {
        self.as_slice().contains(&tx)
    }

    /// The transaction at an index, counted from 0.
    pub fn get(&self, index: usize) -> Option<Tx>
        ensures { result ≡ slice_get self.now index }
    {
        self.as_slice().get(index).copied()
    }

    pub fn as_slice(&self) -> &[Tx]
        ensures list { result.now ≡ self.now }
        ensures bound { length self.now ≤ MOST_MEMBERS }
    {
        &self.numbers[..self.len]
    }

    pub fn iter(&self) -> Iter<'_, Tx>
        ensures { iter_rest result ≡ self.now }
    {
        self.as_slice().iter()
    }

    pub fn copy(&self) -> Self
        ensures { result ≡ self.now }
    {
        Members {
            numbers: self.numbers,
            len: self.len,
        }
    }
}

impl PartialEq for Members {
    ghost eq = { pointwise ◌==◌ };

    ghost laws = { Prim.search (comparing, rules) };

    fn eq(&self, other: &Members) -> bool {
        self.as_slice() == other.as_slice()
    }
}

impl Eq for Members {
    ghost laws = { Prim.search (comparing, rules) };
}
