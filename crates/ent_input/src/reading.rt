//! Texts read: a whole input, or a script alone.
ghost use Rattle.std.specs.Prelude.{◌≡◌, IfErr, IfOk, OnOk};
ghost use Rattle.ent_input.specs.Reading.{IsNoText, IsRead, IsScript, IsText, RefusesInput, RefusesScript};

use crate::fault::InputFault;
use ent_sql::{parse_input, parse_script};
use ent_tree::{Input, Script};
use ent_value::Refusal;
use std::alloc::Global;
use std::str;

/// The most bytes that an input has, and a script that stands alone.
pub const MOST_BYTES: usize = 16_777_216;

/// The text that bytes are, or why they are none: their length comes first, then UTF-8.
fn text_of(bytes: &[u8]) -> Result<&str, InputFault>
    ensures text { IfOk result (λ text. text.now ≡ bytes.now) }
    ensures fits { OnOk result (IsText bytes.now) }
    ensures refused { IfErr result (λ fault. IsNoText bytes.now fault) }
{
    if bytes.len() > MOST_BYTES {
        return Err(InputFault::TooLong);
    }
    match str::from_utf8(bytes) {
        Ok(text) => Ok(text),
        Err(fault) => Err(InputFault::NotUtf8(fault.valid_up_to())),
    }
}

/// Reads the input that bytes are, whatever its form; or answers the first fault of their text: their length, then
/// UTF-8, then tokens and grammar.
pub fn read_input(alloc: Global, bytes: &[u8]) -> Result<Input, Refusal<InputFault>>
    ensures input { IfOk result (λ input. IsRead bytes.now input) }
    ensures refused { IfErr result (λ refusal. RefusesInput bytes.now refusal) }
{
    let text = match text_of(bytes) {
        Ok(text) => text,
        Err(fault) => return Err(Refusal::Fault(fault)),
    };
    match parse_input(alloc, text) {
        Ok(input) => Ok(input),
        Err(Refusal::Memory) => Err(Refusal::Memory),
        Err(Refusal::Fault(fault)) => Err(Refusal::Fault(InputFault::Sql(fault))),
    }
}

/// Reads the script that bytes are, alone, with places from their own start, whatever its form; or answers the first
/// fault of their text, as [`read_input`] does. Behind the script nothing may stand.
pub fn read_script(alloc: Global, bytes: &[u8]) -> Result<Script, Refusal<InputFault>>
    ensures script { IfOk result (λ script. IsScript bytes.now script) }
    ensures refused { IfErr result (λ refusal. RefusesScript bytes.now refusal) }
{
    let text = match text_of(bytes) {
        Ok(text) => text,
        Err(fault) => return Err(Refusal::Fault(fault)),
    };
    match parse_script(alloc, text) {
        Ok(script) => Ok(script),
        Err(Refusal::Memory) => Err(Refusal::Memory),
        Err(Refusal::Fault(fault)) => Err(Refusal::Fault(InputFault::Sql(fault))),
    }
}
