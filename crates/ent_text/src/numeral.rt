//! Numbers as they are written.
ghost use Rattle.std.specs.Prelude.{◌≡◌, ◌<◌, ◌≤◌, ◌^◌, pos};
ghost use Rattle.ent_text.specs.Numeral.{negative_of};

use std::marker::Model;

/// A number without a sign: 0 to 9223372036854775807.
#[derive(Clone, Copy, Debug)]
pub struct Numeral {
    magnitude: u64,
}

impl Model for Numeral {
    ghost use Rattle.std.specs.Prelude.{ℕ, ◌≤◌};

    ghost Value = { ℕ };

    ghost view = { λ n. n.magnitude };

    ghost invariant = { λ n. n.magnitude ≤ 9223372036854775807 };

    ghost inverse = { λ n. record { magnitude = n } };
}

impl Numeral {
    /// The number of this value; the greatest is 9223372036854775807.
    pub fn new(value: u64) -> Self
        requires { value ≤ 9223372036854775807 }
        ensures { result ≡ value }
    {
        Numeral { magnitude: value }
    }

    pub fn value(&self) -> u64
        ensures value { result ≡ self.now }
        ensures bound { result ≤ 9223372036854775807 }
    {
        self.magnitude
    }

    /// The number as it is written.
    pub fn positive(&self) -> i64
        ensures { result ≡ pos self.now }
    {
        self.value() as i64
    }

    /// The number with a minus sign before it.
    pub fn negative(&self) -> i64
        ensures { result ≡ negative_of self.now }
    {
        -self.positive()
    }
}
