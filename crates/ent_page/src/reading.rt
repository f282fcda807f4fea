//! Bytes as rows.
ghost use Rattle.std.specs.Prelude.{◌≡◌, ◌++◌, IfOk, IfSome, ◌+◌, List, false, drop, take, length, ◌≤◌};
ghost use Rattle.ent_value.specs.Value.{kinds_of};
ghost use Rattle.ent_value.specs.declared.value.Value.{Value as Cell};
ghost use Rattle.ent_page.specs.Key.{key_of, AreStorable};
ghost use Rattle.ent_page.specs.Read.{text_from, past_text, unlifted, number_from, value_from, past_value, row_from};

use ent_value::{Kind, Row, Text, Value};
use std::alloc::{AllocError, Global};

/// The row of these kinds that has this key. Bytes that are no key of these kinds give some row.
pub(crate) fn decode(alloc: Global, kinds: &[Kind], key: &[u8]) -> Result<Row, AllocError>
    ensures { IfOk result (λ row. row ≡ row_from kinds.now key.now) }
{
    Ok(Row::from_vec(read_values(alloc, kinds, key)?))
}

fn read_values(alloc: Global, kinds: &[Kind], key: &[u8]) -> Result<Vec<Value>, AllocError>
    ensures { IfOk result (λ values. values.items ≡ row_from kinds.now key.now) }
{
    let mut values = Vec::with_capacity(alloc, kinds.len())?;
    let mut left = key;
    for kind in kinds {
        let (value, more) = read_value(alloc, *kind, left)?;
        values.push(value)?;
        left = more;
    }
    Ok(values)
}

pub(crate) fn read_value(
    alloc: Global,
    kind: Kind,
    bytes: &[u8],
) -> Result<(Value, &[u8]), AllocError>
    ensures value { IfOk result (λ r. r.0 ≡ value_from kind bytes.now) }
    ensures rest { IfOk result (λ r. r.1.now ≡ past_value kind bytes.now) }
{
    match kind {
        Kind::Int => {
            let (number, rest) = read_number(bytes);
            Ok((Value::Int(number), rest))
        }
        Kind::Text => {
            let (text, rest) = read_text(alloc, bytes)?;
            Ok((Value::Text(Text::from_vec(text)), rest))
        }
    }
}

fn read_number(bytes: &[u8]) -> (i64, &[u8])
    ensures value { result.0 ≡ number_from bytes.now }
    ensures rest { result.1.now ≡ drop 8 bytes.now }
{
    match bytes.split_first_chunk::<8>() {
        Some((number, rest)) => (unlift(u64::from_be_bytes(*number)), rest),
        None => (0, &[]),
    }
}

fn unlift(number: u64) -> i64
    ensures { result ≡ unlifted number }
{
    number.wrapping_add(1 << 63).cast_signed()
}

fn read_text(alloc: Global, bytes: &[u8]) -> Result<(Vec<u8>, &[u8]), AllocError>
    ensures value { IfOk result (λ r. r.0.items ≡ take 255 (text_from false bytes.now)) }
    ensures rest { IfOk result (λ r. r.1.now ≡ past_text false bytes.now) }
    ensures limit { IfOk result (λ r. length r.0.items ≤ 255) }
{
    let (mut text, rest) = read_whole_text(alloc, bytes)?;
    text.truncate(255);
    Ok((text, rest))
}

fn read_whole_text(alloc: Global, bytes: &[u8]) -> Result<(Vec<u8>, &[u8]), AllocError>
    ensures value { IfOk result (λ r. r.0.items ≡ text_from false bytes.now) }
    ensures rest { IfOk result (λ r. r.1.now ≡ past_text false bytes.now) }
{
    match plain_end(bytes) {
        Some(end) => Ok((Vec::from_slice(alloc, &bytes[..end])?, &bytes[end + 2..])),
        None => read_long_text(alloc, bytes),
    }
}

/// The length of a text with no 0 inside.
fn plain_end(bytes: &[u8]) -> Option<usize>
    ensures within { IfSome result (λ n. n + 2 ≤ length bytes.now) }
    ensures value { IfSome result (λ n. text_from false bytes.now ≡ take n bytes.now) }
    ensures rest { IfSome result (λ n. past_text false bytes.now ≡ drop (n + 2) bytes.now) }
{
    for (i, byte) in bytes.iter().enumerate() {
        if *byte == 0 {
            if i + 1 < bytes.len() && bytes[i + 1] == 0 {
                return Some(i);
            }
            return None;
        }
    }
    None
}

fn read_long_text(alloc: Global, bytes: &[u8]) -> Result<(Vec<u8>, &[u8]), AllocError>
    ensures value { IfOk result (λ r. r.0.items ≡ text_from false bytes.now) }
    ensures rest { IfOk result (λ r. r.1.now ≡ past_text false bytes.now) }
{
    let mut text = Vec::new(alloc);
    let mut behind_zero = false;
    for (i, byte) in bytes.iter().enumerate() {
        if behind_zero {
            if *byte == 0 {
                return Ok((text, &bytes[i + 1..]));
            }
            text.push(0)?;
            behind_zero = false;
        } else if *byte == 0 {
            behind_zero = true;
        } else {
            text.push(*byte)?;
        }
    }
    Ok((text, &[]))
}

/// What stands for a value of this kind at the front of bytes, and what follows it.
pub(crate) fn split_value(kind: Kind, bytes: &[u8]) -> (&[u8], &[u8])
    ensures whole { bytes.now ≡ result.0.now ++ result.1.now }
    ensures rest { result.1.now ≡ past_value kind bytes.now }
{
    let end = match kind {
        Kind::Int => bytes.len().min(8),
        Kind::Text => text_end(bytes),
    };
    bytes.split_at(end)
}

/// Where a text at the front of bytes ends, with its end.
fn text_end(bytes: &[u8]) -> usize
    ensures within { result ≤ length bytes.now }
    ensures rest { drop result bytes.now ≡ past_text false bytes.now }
{
    let mut behind_zero = false;
    for (i, byte) in bytes.iter().enumerate() {
        if *byte != 0 {
            behind_zero = false;
        } else if behind_zero {
            return i + 1;
        } else {
            behind_zero = true;
        }
    }
    bytes.len()
}
