//! Values as bytes.
ghost use Rattle.std.specs.Prelude.{◌≡◌, ◌++◌, OnOk};
ghost use Rattle.ent_page.specs.Key.{lifted, int_key, text_key, value_key, key_of, IsStorable, AreStorable};

use ent_value::Value;
use std::alloc::AllocError;

/// Puts the key of values at the end.
pub(crate) fn append_values(out: &mut Vec<u8>, values: &[Value]) -> Result<(), AllocError>
    ensures key { OnOk result (out.new.items ≡ out.old.items ++ key_of values.now) }
    ensures stored { OnOk result (AreStorable values.now) }
{
    for value in values {
        append_value(out, value)?;
    }
    Ok(())
}

pub(crate) fn append_value(out: &mut Vec<u8>, value: &Value) -> Result<(), AllocError>
    ensures key { OnOk result (out.new.items ≡ out.old.items ++ value_key value.now) }
    ensures stored { IsStorable value.now }
{
    match value {
        Value::Int(number) => out.extend_from_slice(&int_bytes(*number)),
        Value::Text(text) => append_text(out, text.as_bytes()),
    }
}

pub(crate) fn int_bytes(number: i64) -> [u8; 8]
    ensures { result ≡ int_key number }
{
    lifted_bits(number).to_be_bytes()
}

fn lifted_bits(number: i64) -> u64
    ensures { result ≡ lifted number }
{
    number.cast_unsigned().wrapping_add(1 << 63)
}

fn append_text(out: &mut Vec<u8>, text: &[u8]) -> Result<(), AllocError>
    ensures { OnOk result (out.new.items ≡ out.old.items ++ text_key text.now) }
{
    if text.contains(&0) {
        return append_escaped(out, text);
    }
    out.extend_from_slice(text)?;
    out.extend_from_slice(b"\0\0")
}

fn append_escaped(out: &mut Vec<u8>, text: &[u8]) -> Result<(), AllocError>
    ensures { OnOk result (out.new.items ≡ out.old.items ++ text_key text.now) }
{
    for byte in text {
        out.push(*byte)?;
        if *byte == 0 {
            out.push(255)?;
        }
    }
    out.extend_from_slice(b"\0\0")
}
