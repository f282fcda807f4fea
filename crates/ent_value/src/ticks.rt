//! A count of steps.
ghost use Rattle.std.specs.Prelude.{◌≡◌};
ghost use Rattle.ent_value.specs.Ticks.{ticked};

use std::marker::Model;

/// A count of steps that a call took. It stays at the greatest number that it can hold.
#[derive(Debug, Drop)]
pub struct Ticks {
    count: u64,
}

impl Model for Ticks {
    ghost use Rattle.std.specs.Prelude.{ℕ};

    ghost Value = { ℕ };

    ghost view = { λ t. t.count };
}

impl Ticks {
    /// No step yet.
    pub fn new() -> Self
        ensures { result ≡ 0 }
    {
        Ticks { count: 0 }
    }

    pub fn count(&self) -> u64
        ensures { result ≡ self.now }
    {
        self.count
    }

    /// One step more.
    pub fn add(&mut self)
        ensures { self.new ≡ ticked 1 self.old }
    {
        self.count = self.count.saturating_add(1);
    }
}
