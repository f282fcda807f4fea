//! The key of a row.
ghost use Rattle.std.specs.Prelude.{◌≡◌, IfOk, false};
ghost use Rattle.std.proofs.Common.{rules};
ghost use Rattle.std.specs.Cmp.{eq_by_cmp_equiv, partial_order_from_total, partial_equiv_from_equiv};
ghost use Rattle.std.specs.Cmp.Lexicographic.{nat_list_cmp_total};
ghost use Rattle.std.specs.Cmp.Rules.{comparing};
ghost use Rattle.std.specs.Ordering.{as_partial_cmp, eq_by_cmp};
ghost use Rattle.ent_page.specs.Key.{key_cmp, key_of, value_key, IsStorable, AreStorable};

use crate::writing::{append_value, append_values};
use ent_value::Value;
use std::alloc::{AllocError, Global};
use std::cmp::Ordering;
use std::marker::Model;

/// The key of a list of values: bytes whose order, among lists of values of the same kinds, is that of the lists.
/// Contracts see the bytes.
#[derive(Debug, Drop)]
pub struct Key {
    bytes: Vec<u8>,
}

impl Model for Key {
    ghost use Rattle.std.specs.Prelude.{ℕ, List};

    ghost Value = { List ℕ };

    ghost view = { λ k. k.bytes.items };
}

impl Key {
    /// The key of a row, or of the first values of one.
    pub fn of(alloc: Global, values: &[Value]) -> Result<Self, AllocError>
        ensures key { IfOk result (λ key. key ≡ key_of values.now) }
        ensures stored { IfOk result (λ key. AreStorable values.now) }
    {
        let mut bytes = Vec::with_capacity(alloc, 32)?;
        append_values(&mut bytes, values)?;
        Ok(Key { bytes })
    }

    /// The key of one value.
    pub(crate) fn of_value(alloc: Global, value: &Value) -> Result<Self, AllocError>
        ensures key { IfOk result (λ key. key ≡ value_key value.now) }
        ensures stored { IfOk result (λ key. IsStorable value.now) }
    {
        let mut bytes = Vec::with_capacity(alloc, 32)?;
        append_value(&mut bytes, value)?;
        Ok(Key { bytes })
    }

    pub fn as_bytes(&self) -> &[u8]
        ensures { result.now ≡ self.now }
    {
        self.bytes.as_slice()
    }
}

impl PartialEq for Key {
    ghost eq = { eq_by_cmp key_cmp };

    ghost laws = { partial_equiv_from_equiv (eq_by_cmp_equiv nat_list_cmp_total) };

    fn eq(&self, other: &Key) -> bool {
        self.cmp(other) == Ordering::Equal
    }
}

impl Eq for Key {
    ghost laws = { eq_by_cmp_equiv nat_list_cmp_total };
}

impl Ord for Key {
    ghost cmp = { key_cmp };

    ghost total = { nat_list_cmp_total };

    ghost matches_partial_cmp = { Prim.search (comparing, rules) };

    ghost matches_eq = { Prim.search (comparing, rules) };

    fn cmp(&self, other: &Key) -> Ordering {
        self.bytes.as_slice().cmp(other.bytes.as_slice())
    }
}

impl PartialOrd for Key {
    ghost partial_cmp = { as_partial_cmp key_cmp };

    ghost laws = { partial_order_from_total nat_list_cmp_total };

    fn partial_cmp(&self, other: &Key) -> Option<Ordering> {
        Some(self.cmp(other))
    }
}
