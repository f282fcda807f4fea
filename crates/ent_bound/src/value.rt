//! A value that can be bound.
ghost use Rattle.std.specs.Prelude.{◌≡◌, ◌≢◌, IfErr, IfOk, MatchOption};
ghost use Rattle.std.specs.Char.{is_ascii_control};
ghost use Rattle.std.specs.List.{position_from};
ghost use Rattle.ent_value.specs.declared.value.Value.TheVariants.{Int, Text as Texts};
ghost use Rattle.ent_bound.specs.Bindable.{IsBindable, IsBindableText, IsTextFault, RefusesText, least_number};
ghost use Rattle.ent_bound.specs.declared.fault.ValueFault.TheVariants.{LeastNumber};

use crate::fault::ValueFault;
use ent_value::{LONGEST_TEXT, Refusal, Text, Value};
use std::alloc::Global;
use std::marker::Model;
use std::str;

/// A value that can be bound to a host variable: a number but for -9223372036854775808, or a text of UTF-8 of at most
/// [`LONGEST_TEXT`] bytes and without control characters. These are the values that a script can spell. Contracts see
/// the value.
#[derive(Debug, Drop)]
pub struct BoundValue {
    value: Value,
}

impl Model for BoundValue {
    ghost use Rattle.ent_value.specs.declared.value.Value.{Value as Known};
    ghost use Rattle.ent_bound.specs.Bindable.{IsBindable};

    ghost Value = { Known };

    ghost view = { λ bound. bound.value };

    ghost invariant = { λ bound. IsBindable bound.value };
}

impl BoundValue {
    /// A number. The least one is refused.
    pub fn number(number: i64) -> Result<Self, ValueFault>
        ensures ok { IfOk result (λ made. (made ≡ Int number) × (number ≢ least_number)) }
        ensures fault { IfErr result (λ fault. (fault ≡ LeastNumber) × (number ≡ least_number)) }
    {
        if number == i64::MIN {
            return Err(ValueFault::LeastNumber);
        }
        Ok(BoundValue {
            value: Value::Int(number),
        })
    }

    /// A text of its own with these bytes, or the first fault of them: their length comes first, then UTF-8, then
    /// control characters.
    pub fn text(alloc: Global, bytes: &[u8]) -> Result<Self, Refusal<ValueFault>>
        ensures ok { IfOk result (λ made. (made ≡ Texts bytes.now) × IsBindable (Texts bytes.now)) }
        ensures fault { IfErr result (λ refusal. RefusesText bytes.now refusal) }
    {
        if let Some(fault) = text_fault(bytes) {
            return Err(Refusal::Fault(fault));
        }
        let text = Text::from_bytes(alloc, bytes)?;
        Ok(BoundValue {
            value: Value::Text(text),
        })
    }

    /// The value.
    pub fn get(&self) -> &Value
        ensures value { result.now ≡ self.now }
        ensures fits { IsBindable self.now }
    {
        &self.value
    }
}

/// Why a text can't be bound, if it can't.
fn text_fault(bytes: &[u8]) -> Option<ValueFault>
    ensures { MatchOption result (IsBindableText bytes.now) (λ fault. IsTextFault bytes.now fault) }
{
    if bytes.len() > LONGEST_TEXT {
        return Some(ValueFault::TooLong);
    }
    if let Err(fault) = str::from_utf8(bytes) {
        return Some(ValueFault::NotUtf8(fault.valid_up_to()));
    }
    Some(ValueFault::ControlCharacter(control_character(bytes)?))
}

/// Where the first control character stands, if one does. They are ASCII.
fn control_character(bytes: &[u8]) -> Option<usize>
    ensures { result ≡ position_from is_ascii_control 0 bytes.now }
{
    bytes.iter().position(|byte| byte.is_ascii_control())
}
