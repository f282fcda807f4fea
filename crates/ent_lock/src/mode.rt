//! How a table is used.
ghost use Rattle.std.specs.Prelude.{◌≡◌, ◌⊎◌, ◌↔◌, IsTrue};
ghost use Rattle.ent_lock.specs.Mode.{in_conflict};

/// How a transaction uses a table: shared with other transactions, or alone.
#[derive(Clone, Copy, Debug, PartialEq, Eq)]
pub enum Mode {
    Shared,
    Exclusive,
}

impl Mode {
    /// Whether two uses of one table by two transactions are in conflict: they are where one is exclusive.
    pub fn in_conflict(self, other: Mode) -> bool
        ensures value { result ≡ in_conflict self other }
        ensures exclusive { IsTrue result ↔ ((self ≡ Mode.Exclusive) ⊎ (other ≡ Mode.Exclusive)) }
    {
        self == Mode::Exclusive || other == Mode::Exclusive
    }
}
