//! Values and rows as text.
ghost use Rattle.std.specs.Prelude.{◌≡◌, ◌++◌, OnOk, OnErr, length, take};
ghost use Rattle.std.specs.Fmt.{signed_decimal};
ghost use Rattle.ent_value.specs.Print.{value_text, row_text, doubled, more_text};

use crate::row::Row;
use crate::value::Value;
use itoa::Buffer;
use std::alloc::{AllocError, Global};

/// Puts the text of a value at the end: a number in decimal, with a leading `-` where it is negative; a text in
/// single quotes, with each quote inside doubled.
pub fn print_value(_alloc: Global, out: &mut Vec<u8>, value: &Value) -> Result<(), AllocError>
    ensures ok { OnOk result (out.new.items ≡ out.old.items ++ value_text value.now) }
    ensures err { OnErr result (out.new.items ≡ out.old.items) }
{
    let len = out.len();
    let done = append_value(out, value);
    if done.is_err() {
        out.truncate(len);
    }
    done
}

/// Puts the text of a row at the end: its values in parentheses, divided by a comma and a space.
pub fn print_row(_alloc: Global, out: &mut Vec<u8>, row: &Row) -> Result<(), AllocError>
    ensures ok { OnOk result (out.new.items ≡ out.old.items ++ row_text row.now) }
    ensures err { OnErr result (out.new.items ≡ out.old.items) }
{
    let len = out.len();
    let done = append_row(out, row.values());
    if done.is_err() {
        out.truncate(len);
    }
    done
}

fn append_doubled(out: &mut Vec<u8>, text: &[u8]) -> Result<(), AllocError>
    ensures ok { OnOk result (out.new.items ≡ out.old.items ++ doubled text.now) }
    ensures kept { take (length out.old.items) out.new.items ≡ out.old.items }
{
    for byte in text {
        if *byte == b'\'' {
            out.push(b'\'')?;
        }
        out.push(*byte)?;
    }
    Ok(())
}

fn append_number(out: &mut Vec<u8>, number: i64) -> Result<(), AllocError>
    ensures ok { OnOk result (out.new.items ≡ out.old.items ++ signed_decimal number) }
    ensures kept { take (length out.old.items) out.new.items ≡ out.old.items }
{
    let mut digits = Buffer::new();
    out.extend_from_slice(digits.format(number).as_bytes())
}

fn append_value(out: &mut Vec<u8>, value: &Value) -> Result<(), AllocError>
    ensures ok { OnOk result (out.new.items ≡ out.old.items ++ value_text value.now) }
    ensures kept { take (length out.old.items) out.new.items ≡ out.old.items }
{
    match value {
        Value::Int(number) => append_number(out, *number),
        Value::Text(text) => {
            out.push(b'\'')?;
            append_doubled(out, text.as_bytes())?;
            out.push(b'\'')?;
            Ok(())
        }
    }
}

/// Puts values at the end, each behind a comma and a space.
fn append_more(out: &mut Vec<u8>, values: &[Value]) -> Result<(), AllocError>
    ensures ok { OnOk result (out.new.items ≡ out.old.items ++ more_text values.now) }
    ensures kept { take (length out.old.items) out.new.items ≡ out.old.items }
{
    for value in values {
        out.extend_from_slice(b", ")?;
        append_value(out, value)?;
    }
    Ok(())
}

fn append_row(out: &mut Vec<u8>, values: &[Value]) -> Result<(), AllocError>
    ensures ok { OnOk result (out.new.items ≡ out.old.items ++ row_text values.now) }
    ensures kept { take (length out.old.items) out.new.items ≡ out.old.items }
{
    out.push(b'(')?;
    if let [first, more @ ..] = values {
        append_value(out, first)?;
        append_more(out, more)?;
    }
    out.push(b')')?;
    Ok(())
}
