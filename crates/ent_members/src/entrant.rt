//! Those who wait for a run.
ghost use Rattle.std.specs.Prelude.{◌≡◌, ◌+◌, ◌<◌, ◌^◌};

use ent_group::Tx;
use std::marker::Model;

/// A transaction that is in no run, and in how many it was.
#[derive(Clone, Copy, Debug)]
pub struct Entrant {
    tx: Tx,
    runs: u64,
}

impl Model for Entrant {
    ghost use Rattle.std.specs.Prelude.{◌+◌, ◌<◌, ◌^◌};
    ghost use Rattle.ent_protocol.specs.State.{Dormant};

    ghost Value = { Dormant };

    ghost view = { λ e. record { tx = e.tx; runs = e.runs } };

    ghost invariant = { λ e. e.runs + 1 < 2 ^ 64 };

    ghost inverse = { λ d. record { tx = d.tx; runs = d.runs } };
}

impl Entrant {
    /// A transaction after so many runs; one more can be counted.
    pub fn new(tx: Tx, runs: u64) -> Self
        requires { runs + 1 < 2 ^ 64 }
        ensures { result ≡ record { tx = tx; runs = runs } }
    {
        Entrant { tx, runs }
    }

    pub fn tx(self) -> Tx
        ensures { result ≡ self.tx }
    {
        self.tx
    }

    pub fn runs(self) -> u64
        ensures runs { result ≡ self.runs }
        ensures bound { self.runs + 1 < 2 ^ 64 }
    {
        self.runs
    }
}
