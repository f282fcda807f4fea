//! Tickets.
ghost use Rattle.std.specs.Prelude.{◌≡◌};

use std::marker::Model;

/// The ticket of a script that was put into a room. A ticket with a greater number was given out later, and none is
/// given out twice. Contracts see the number.
#[derive(Clone, Copy, Debug, PartialEq, Eq, PartialOrd, Ord)]
pub struct Ticket {
    number: u64,
}

impl Model for Ticket {
    ghost use Rattle.std.specs.Prelude.{ℕ};

    ghost Value = { ℕ };

    ghost view = { λ t. t.number };

    ghost inverse = { λ n. record { number = n } };
}

impl Ticket {
    pub fn new(number: u64) -> Self
        ensures { result ≡ number }
    {
        Ticket { number }
    }

    pub fn number(self) -> u64
        ensures { result ≡ self }
    {
        self.number
    }
}
