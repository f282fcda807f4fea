//! A value of a row that is given.
ghost use Rattle.std.specs.Prelude.{◌≡◌, IfErr, IfOk, OnOk};
ghost use Rattle.ent_value.specs.declared.value.Value.TheVariants.{Int, Text as Texts};
ghost use Rattle.ent_bound.specs.Bindable.{IsBindableText, RefusesText};
ghost use Rattle.ent_prepare.specs.Givable.{IsGivable};

use ent_bound::{BoundValue, ValueFault};
use ent_value::{Refusal, Value};
use std::alloc::Global;
use std::marker::Model;

/// A value of a row that is given: any number, or a text of UTF-8 of at most 255 bytes and without control characters.
/// A script can spell all of these but the least number. Contracts see the value.
#[derive(Debug, Drop)]
pub struct GivenValue {
    value: Value,
}

impl Model for GivenValue {
    ghost use Rattle.ent_value.specs.declared.value.Value.{Value as Known};
    ghost use Rattle.ent_prepare.specs.Givable.{IsGivable};

    ghost Value = { Known };

    ghost view = { λ given. given.value };

    ghost invariant = { λ given. IsGivable given.value };
}

impl GivenValue {
    /// A number.
    pub fn number(number: i64) -> Self
        ensures { result ≡ Int number }
    {
        GivenValue {
            value: Value::Int(number),
        }
    }

    /// A text of its own with these bytes, or the first fault of them, as a value that is bound has it.
    pub fn text(alloc: Global, bytes: &[u8]) -> Result<Self, Refusal<ValueFault>>
        ensures text { IfOk result (λ given. given ≡ Texts bytes.now) }
        ensures fits { OnOk result (IsBindableText bytes.now) }
        ensures fault { IfErr result (λ refusal. RefusesText bytes.now refusal) }
    {
        let bound = BoundValue::text(alloc, bytes)?;
        let value = bound.get().copy(alloc)?;
        Ok(GivenValue { value })
    }

    /// The value.
    pub fn get(&self) -> &Value
        ensures value { result.now ≡ self.now }
        ensures fits { IsGivable self.now }
    {
        &self.value
    }
}
