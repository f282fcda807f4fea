//! Uses of tables.
ghost use Rattle.std.specs.Prelude.{◌≡◌};
ghost use Rattle.ent_protocol.specs.Uses.{shared, exclusive};

use ent_lock::Mode;
use std::marker::Model;

/// A table, by its number, and how it is used.
#[derive(Clone, Copy, Debug)]
pub struct Use {
    table: usize,
    mode: Mode,
}

impl Model for Use {
    ghost use Rattle.ent_protocol.specs.State.{Use as Seen};

    ghost Value = { Seen };

    ghost view = { λ u. record { table = u.table; mode = u.mode } };

    ghost inverse = { λ u. record { table = u.table; mode = u.mode } };
}

impl Use {
    /// A table is read.
    pub fn shared(table: usize) -> Self
        ensures { result ≡ shared table }
    {
        Use {
            table,
            mode: Mode::Shared,
        }
    }

    /// A table is changed.
    pub fn exclusive(table: usize) -> Self
        ensures { result ≡ exclusive table }
    {
        Use {
            table,
            mode: Mode::Exclusive,
        }
    }

    pub fn table(self) -> usize
        ensures { result ≡ self.table }
    {
        self.table
    }

    pub fn mode(self) -> Mode
        ensures { result ≡ self.mode }
    {
        self.mode
    }
}
