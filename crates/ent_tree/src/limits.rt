//! How many there may be of each thing in an input.
ghost use Rattle.std.specs.Prelude.{◌≡◌, ◌≤◌};
ghost use Rattle.ent_tree.specs.declared.limits.TheConstants.{MOST_RUNS};

use std::marker::Model;

/// The most tables of an input.
pub const MOST_TABLES: usize = 64;

/// The most opening rows of an input.
pub const MOST_OPENING_ROWS: usize = 65_536;

/// The most scripts of an input.
pub const MOST_SCRIPTS: usize = 10_000;

/// The most statements of a script before its end.
pub const MOST_STATEMENTS: usize = 64;

/// The most parts of a comma list, and the most conditions of a WHERE.
pub const MOST_PARTS: usize = 16;

/// The most sources of a FROM.
pub const MOST_SOURCES: usize = 4;

/// The most runs that a script may ask for.
pub const MOST_RUNS: u64 = 1_000;

/// The runs of a script that says nothing of them.
pub const DEFAULT_RUNS: u64 = 8;

/// In how many runs a transaction may take part: 1 to [`MOST_RUNS`]. Contracts see the number.
#[derive(Clone, Copy, Debug)]
pub struct Runs {
    count: u64,
}

impl Model for Runs {
    ghost use Rattle.std.specs.Prelude.{ℕ, ◌≤◌};
    ghost use Rattle.ent_tree.specs.declared.limits.TheConstants.{MOST_RUNS};

    ghost Value = { ℕ };

    ghost view = { λ r. r.count };

    ghost invariant = { λ r. (1 ≤ r.count) × (r.count ≤ MOST_RUNS) };

    ghost inverse = { λ n. record { count = n } };
}

impl Runs {
    pub fn new(count: u64) -> Self
        requires least { 1 ≤ count }
        requires limit { count ≤ MOST_RUNS }
        ensures { result ≡ count }
    {
        Runs { count }
    }

    pub fn get(self) -> u64
        ensures number { result ≡ self }
        ensures least { 1 ≤ self }
        ensures limit { self ≤ MOST_RUNS }
    {
        self.count
    }
}
