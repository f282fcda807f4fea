//! Rows of values.
ghost use Rattle.std.specs.Prelude.{◌≡◌, IfOk, List, false};
ghost use Rattle.std.proofs.Common.{rules};
ghost use Rattle.std.specs.Cmp.{IsTotalOrder, partial_order_from_total, partial_equiv_from_equiv};
ghost use Rattle.std.specs.Cmp.Rules.{comparing};
ghost use Rattle.std.specs.Ordering.{as_partial_cmp, eq_by_cmp};
ghost use Rattle.std.specs.declared.cmp.Ordering.TheVariants.{Equal};
ghost use Rattle.ent_value.specs.Value.{row_cmp};
ghost use Rattle.ent_value.specs.Order.{rows_total, rows_equal};
ghost use Rattle.ent_value.specs.declared.value.Value.{Value as Cell};

use crate::value::Value;
use std::alloc::{AllocError, Global};
use std::cmp::Ordering;
use std::marker::Model;

/// A row of a table or of an answer. Rows are ordered value by value; a row comes before those that it begins.
#[derive(Debug)]
pub struct Row {
    values: Vec<Value>,
}

impl Drop for Row {
    fn drop(self) {
        let Row { values: _values } = self;
    }
}

impl Model for Row {
    ghost use Rattle.std.specs.Prelude.{List};
    ghost use Rattle.ent_value.specs.declared.value.Value.{Value as Cell};

    ghost Value = { List Cell };

    ghost view = { λ r. r.values.items };
}

impl Row {
    /// The row of these values, which are moved and not copied.
    pub fn from_vec(values: Vec<Value>) -> Self
        ensures { result ≡ values.items }
    {
        Row { values }
    }

    pub fn values(&self) -> &[Value]
        ensures { result.now ≡ self.now }
    {
        self.values.as_slice()
    }

    pub fn copy(&self, alloc: Global) -> Result<Self, AllocError>
        ensures { IfOk result (λ r. r ≡ self.now) }
    {
        let mut values = Vec::with_capacity(alloc, self.values.len())?;
        for value in &self.values {
            values.push(value.copy(alloc)?)?;
        }
        Ok(Row { values })
    }
}

impl PartialEq for Row {
    ghost eq = { eq_by_cmp row_cmp };

    ghost laws = { partial_equiv_from_equiv rows_equal };

    fn eq(&self, other: &Row) -> bool {
        self.cmp(other) == Ordering::Equal
    }
}

impl Eq for Row {
    ghost laws = { rows_equal };
}

impl Ord for Row {
    ghost cmp = { row_cmp };

    ghost total = { rows_total };

    ghost matches_partial_cmp = { Prim.search (comparing, rules) };

    ghost matches_eq = { Prim.search (comparing, rules) };

    fn cmp(&self, other: &Row) -> Ordering {
        self.values.as_slice().cmp(other.values.as_slice())
    }
}

impl PartialOrd for Row {
    ghost partial_cmp = { as_partial_cmp row_cmp };

    ghost laws = { partial_order_from_total rows_total };

    fn partial_cmp(&self, other: &Row) -> Option<Ordering> {
        Some(self.cmp(other))
    }
}

/// Rows are in a total order, in which only equal ones tie.
pub fn rows_are_ordered()
    ensures total { IsTotalOrder row_cmp }
    ensures exact { (x y : List Cell) → row_cmp x y ≡ Equal → x ≡ y }
{}
