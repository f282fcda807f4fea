//! Values and their kinds.
ghost use Rattle.std.specs.Prelude.{◌≡◌, IfOk};
ghost use Rattle.std.specs.Cmp.{IsTotalOrder};
ghost use Rattle.std.specs.declared.cmp.Ordering.TheVariants.{Equal};
ghost use Rattle.ent_value.specs.Value.{value_cmp, kind_of};
ghost use Rattle.ent_value.specs.declared.value.Value.{Value};

use crate::text::Text;
use std::alloc::{AllocError, Global};

/// What a column holds.
#[derive(Clone, Copy, Debug, PartialEq, Eq)]
pub enum Kind {
    /// Whole numbers of 64 bits, signed.
    Int,
    Text,
}

/// A value of a row: numbers come before texts, numbers in order of value, texts in order of their bytes.
#[derive(Debug, PartialEq, Eq, PartialOrd, Ord)]
pub enum Value {
    Int(i64),
    Text(Text),
}

impl Drop for Value {
    fn drop(self) {
        match self {
            Value::Int(_number) => {}
            Value::Text(_text) => {}
        }
    }
}

impl Value {
    pub fn kind(&self) -> Kind
        ensures { result ≡ kind_of self.now }
    {
        match self {
            Value::Int(_) => Kind::Int,
            Value::Text(_) => Kind::Text,
        }
    }

    pub fn copy(&self, alloc: Global) -> Result<Self, AllocError>
        ensures { IfOk result (λ v. v ≡ self.now) }
    {
        match self {
            Value::Int(number) => Ok(Value::Int(*number)),
            Value::Text(text) => Ok(Value::Text(text.copy(alloc)?)),
        }
    }
}

/// Values are in a total order, in which only equal ones tie.
pub fn values_are_ordered()
    ensures total { IsTotalOrder value_cmp }
    ensures exact { (x y : Value) → value_cmp x y ≡ Equal → x ≡ y }
{}
