//! The two sides of an equation: values, and variables of members.
ghost use Rattle.std.specs.Prelude.{◌≡◌, ◌↔◌, ◌<◌, IsTrue, IfOk, true};
ghost use Rattle.std.specs.List.{AllByRecursion};
ghost use Rattle.ent_value.specs.Value.{kind_of};
ghost use Rattle.ent_semantics.specs.Kinds.{IsOfKind};
ghost use Rattle.ent_unify.specs.Side.{seen, side_kind, resolved, single};

use crate::variable::{Representative, Variable};
use ent_value::{Kind, Value};
use std::alloc::{AllocError, Global};

/// A value or a variable, borrowed.
#[derive(Clone, Copy)]
pub(crate) enum Side<'a> {
    Constant(&'a Value),
    Variable(Variable),
}

impl<'a> Side<'a> {
    fn kind(self) -> Kind
        ensures { result ≡ side_kind (seen self.entry) }
    {
        match self {
            Side::Constant(value) => value.kind(),
            Side::Variable(variable) => variable.kind,
        }
    }

    /// Whether the values of the two are of one kind.
    pub(crate) fn has_kind_of(self, other: Side<'_>) -> bool
        ensures { IsTrue result ↔ (side_kind (seen self.entry) ≡ side_kind (seen other.entry)) }
    {
        self.kind() == other.kind()
    }

    /// Whether the two are the same value or the same variable.
    pub(crate) fn is_same(self, other: Side<'_>) -> bool
        ensures { IsTrue result ↔ (seen self.entry ≡ seen other.entry) }
    {
        match (self, other) {
            (Side::Constant(value), Side::Constant(other)) => *value == *other,
            (Side::Variable(variable), Side::Variable(other)) => variable == other,
            _ => false,
        }
    }

    /// The side with another one in the place of a variable.
    pub(crate) fn substituted(self, variable: Variable, by: Side<'a>) -> Side<'a>
        ensures { seen result ≡ resolved (single variable (seen by.entry)) (seen self.entry) }
    {
        match self {
            Side::Variable(other) if variable == other => by,
            _ => self,
        }
    }

    /// The side with a value of its own.
    pub(crate) fn to_owned(self, alloc: Global) -> Result<Representative, AllocError>
        ensures { IfOk result (λ owned. owned ≡ seen self.entry) }
    {
        match self {
            Side::Constant(value) => Ok(Representative::Constant(value.copy(alloc)?)),
            Side::Variable(variable) => Ok(Representative::Variable(variable)),
        }
    }
}

/// Bytes are below 256.
fn bytes_are_bytes(bytes: &[u8])
    ensures { AllByRecursion (λ byte. byte < 256) bytes.now }
{
    let _count = bytes.len();
}

/// A value that stands anywhere is within the bounds of its kind.
pub(crate) fn value_is_within_bounds(value: &Value)
    ensures { IsOfKind (kind_of value.now) value.now }
{
    match value {
        Value::Int(number) => {
            let _number = *number;
        }
        Value::Text(text) => bytes_are_bytes(text.as_bytes()),
    }
}
