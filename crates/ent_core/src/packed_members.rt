//! The members that a reply tells, in two bytes each.
ghost use Rattle.std.specs.Prelude.{◌≡◌, ◌<◌, ◌≤◌, ◌∷◌, ◌++◌, [], length, All};

use ent_group::{MOST_MEMBERS, Members, Tx};
use std::marker::Model;

/// The greatest number of a transaction that [`PackedMembers`] has room for.
pub(crate) const GREATEST_PACKED: Tx = 65_535;

/// A list of up to [`MOST_MEMBERS`] transactions, in two bytes each: a quarter of what [`Members`] takes, since a reply
/// is handed on often. It takes no memory, so no call of it can fail.
#[derive(Debug, Drop)]
pub struct PackedMembers {
    numbers: [u16; MOST_MEMBERS],
    len: usize,
}

impl Model for PackedMembers {
    ghost use Rattle.std.specs.Prelude.{List, ℕ, take, ◌≤◌};
    ghost use Rattle.ent_group.specs.declared.members.TheConstants.{MOST_MEMBERS};

    ghost Value = { List ℕ };

    ghost view = { λ m. take m.len m.numbers };

    ghost invariant = { λ m. m.len ≤ MOST_MEMBERS };
}

impl PackedMembers {
    /// The list of no transaction.
    pub(crate) fn new() -> Self
        ensures { result ≡ [] }
    {
        PackedMembers {
            numbers: [0; MOST_MEMBERS],
            len: 0,
        }
    }

    /// The same transactions, which are of numbers up to [`GREATEST_PACKED`].
    pub(crate) fn of(members: &Members) -> Self
        requires { All (λ tx. tx ≤ GREATEST_PACKED) members.now }
        ensures { result ≡ members.now }
    {
        let mut packed = PackedMembers::new();
        for tx in members.as_slice() {
            packed.push(*tx);
        }
        packed
    }

    fn push(&mut self, tx: Tx)
        requires room { length self.old < MOST_MEMBERS }
        requires small { tx ≤ GREATEST_PACKED }
        ensures { self.new ≡ self.old ++ tx ∷ [] }
    {
        self.numbers[self.len] = tx as u16;
        self.len += 1;
    }

    /// The same transactions, as a list that can grow.
    pub fn unpacked(&self) -> Members
        ensures { result ≡ self.now }
    {
        let mut members = Members::new();
        for number in &self.numbers[..self.len] {
            members.push(*number as Tx);
        }
        members
    }
}
