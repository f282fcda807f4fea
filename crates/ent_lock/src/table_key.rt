//! What names a table.
ghost use Rattle.std.specs.Prelude.{◌≡◌, ℕ, List, [], ◌∷◌, IfOk};
ghost use Rattle.std.specs.Ordering.{nat_cmp};
ghost use Rattle.std.specs.Cmp.Lexicographic.{slice_cmp};
ghost use Rattle.ent_lock.specs.Use.{key_of_number};

use ent_value::Name;
use std::alloc::{AllocError, Global};
use std::cmp::Ordering;

/// What names a table: its number, or its name. Contracts know a table by its key, a list of numbers: the key of a
/// number is that number alone, and the key of a name is its bytes.
pub trait TableKey: Drop {
    ghost key: { Self → List ℕ };

    /// How two tables stand in the order of their keys.
    fn compare(&self, other: &Self) -> Ordering
        ensures { result ≡ slice_cmp nat_cmp (key self.now) (key other.now) };

    /// Names the same table.
    fn copy(&self, alloc: Global) -> Result<Self, AllocError>
        ensures { IfOk result (λ copy. copy ≡ self.now) };
}

impl TableKey for usize {
    ghost key = { key_of_number };

    fn compare(&self, other: &usize) -> Ordering {
        self.cmp(other)
    }

    fn copy(&self, _alloc: Global) -> Result<usize, AllocError> {
        Ok(*self)
    }
}

impl TableKey for Name {
    ghost key = { λ name. name };

    fn compare(&self, other: &Name) -> Ordering {
        self.cmp(other)
    }

    fn copy(&self, alloc: Global) -> Result<Name, AllocError> {
        Name::copy(self, alloc)
    }
}
