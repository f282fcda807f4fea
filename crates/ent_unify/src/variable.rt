//! Variables of several members, and what stands for a class of them.
ghost use Rattle.std.specs.Prelude.{◌≡◌};
ghost use Rattle.std.specs.Option.{option_copied};
ghost use Rattle.ent_unify.specs.Unifier.{constant_in};

use ent_value::{Kind, Value};

/// A variable of a member's statement, with the kind of its values. Member and variable are numbers counted from 0.
#[derive(Clone, Copy, Debug, PartialEq, Eq)]
pub struct Variable {
    pub member: usize,
    pub index: usize,
    pub kind: Kind,
}

/// What stands for a class of variables: the value that each of them must have, or one of them.
#[derive(Debug, Drop)]
pub enum Representative {
    Constant(Value),
    Variable(Variable),
}

impl Representative {
    /// The value, where it is one.
    pub fn constant(&self) -> Option<&Value>
        ensures { option_copied result ≡ constant_in self.now }
    {
        match self {
            Representative::Constant(value) => Some(value),
            Representative::Variable(_) => None,
        }
    }
}
