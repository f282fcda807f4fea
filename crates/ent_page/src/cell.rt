//! Values that stand as bytes.
ghost use Rattle.std.specs.Prelude.{◌≡◌, IfOk, nat_eq};
ghost use Rattle.std.proofs.Common.{rules};
ghost use Rattle.std.specs.Cmp.{eq_by_cmp_equiv, partial_order_from_total, partial_equiv_from_equiv};
ghost use Rattle.std.specs.Cmp.Lexicographic.{pointwise};
ghost use Rattle.std.specs.Cmp.Rules.{comparing};
ghost use Rattle.std.specs.Ordering.{as_partial_cmp, eq_by_cmp};
ghost use Rattle.ent_value.specs.Value.{value_cmp, kind_of};
ghost use Rattle.ent_value.specs.Order.{values_total};
ghost use Rattle.ent_page.specs.Read.{value_from};
ghost use Rattle.ent_page.specs.Cells.{IsCell};

use crate::key::Key;
use crate::reading::read_value;
use ent_value::{Kind, Value};
use std::alloc::{AllocError, Global};
use std::cmp::Ordering;
use std::marker::Model;

/// A value of a row where it stands in the row's key, or a [`KnownValue`]. Cells compare as their values do, and take
/// no memory. Contracts see the value.
#[derive(Drop)]
pub struct Cell<'a> {
    kind: Kind,
    bytes: &'a [u8],
}

impl<'a> Model for Cell<'a> {
    ghost use Rattle.ent_value.specs.declared.value.Value.{Value as Held};
    ghost use Rattle.ent_page.specs.Read.{value_from};
    ghost use Rattle.ent_page.specs.Cells.{IsCell};

    ghost Value = { Held };

    ghost view = { λ c. value_from c.kind c.bytes.now };

    ghost invariant = { λ c. IsCell c.kind c.bytes.now };
}

impl<'a> Cell<'a> {
    /// The value of this kind that has these bytes as its key.
    pub(crate) fn new(kind: Kind, bytes: &'a [u8]) -> Self
        requires { IsCell kind bytes.now }
        ensures { result ≡ value_from kind bytes.now }
    {
        Cell { kind, bytes }
    }

    pub fn kind(&self) -> Kind
        ensures { result ≡ kind_of self.now }
    {
        self.kind
    }

    /// The value, in memory of its own.
    pub fn to_value(&self, alloc: Global) -> Result<Value, AllocError>
        ensures { IfOk result (λ value. value ≡ self.now) }
    {
        let (value, _) = read_value(alloc, self.kind, self.bytes)?;
        Ok(value)
    }
}

/// Whether two lists of bytes are the same. Lists of cells are mostly so short that a plain loop is the fastest.
fn are_same_bytes(left: &[u8], right: &[u8]) -> bool
    ensures { result ≡ pointwise nat_eq left.now right.now }
{
    if left.len() != right.len() {
        return false;
    }
    for index in 0..left.len() {
        if left[index] != right[index] {
            return false;
        }
    }
    true
}

impl<'a> PartialEq for Cell<'a> {
    ghost eq = { eq_by_cmp value_cmp };

    ghost laws = { partial_equiv_from_equiv (eq_by_cmp_equiv values_total) };

    #[inline(always)]
    fn eq(&self, other: &Cell<'a>) -> bool {
        match self.kind {
            Kind::Int => match other.kind {
                Kind::Int => are_same_bytes(self.bytes, other.bytes),
                Kind::Text => false,
            },
            Kind::Text => match other.kind {
                Kind::Int => false,
                Kind::Text => are_same_bytes(self.bytes, other.bytes),
            },
        }
    }
}

impl<'a> Eq for Cell<'a> {
    ghost laws = { eq_by_cmp_equiv values_total };
}

impl<'a> Ord for Cell<'a> {
    ghost cmp = { value_cmp };

    ghost total = { values_total };

    ghost matches_partial_cmp = { Prim.search (comparing, rules) };

    ghost matches_eq = { Prim.search (comparing, rules) };

    fn cmp(&self, other: &Cell<'a>) -> Ordering {
        match self.kind {
            Kind::Int => match other.kind {
                Kind::Int => self.bytes.cmp(other.bytes),
                Kind::Text => Ordering::Less,
            },
            Kind::Text => match other.kind {
                Kind::Int => Ordering::Greater,
                Kind::Text => self.bytes.cmp(other.bytes),
            },
        }
    }
}

impl<'a> PartialOrd for Cell<'a> {
    ghost partial_cmp = { as_partial_cmp value_cmp };

    ghost laws = { partial_order_from_total values_total };

    fn partial_cmp(&self, other: &Cell<'a>) -> Option<Ordering> {
        Some(self.cmp(other))
    }
}
