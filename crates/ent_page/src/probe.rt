//! What a key is compared with.
ghost use Rattle.std.specs.Prelude.{◌≡◌, ◌++◌, ◌↔◌, ℕ, List, IsTrue, MatchResult};
ghost use Rattle.ent_page.specs.Key.{byte_key, text_key, value_key, key_of, key_cmp};

use crate::key::Key;
use crate::writing::int_bytes;
use ent_value::{Row, Value};
use std::cmp::Ordering;

/// What has a key of its own, with which others are compared.
pub trait Probe {
    ghost bytes: { Self → List ℕ };

    /// How a key compares with this one.
    fn against(&self, key: &[u8]) -> Ordering
        ensures { result ≡ key_cmp key.now (bytes self.now) };
}

impl Probe for Key {
    ghost bytes = { λ k. k };

    fn against(&self, key: &[u8]) -> Ordering {
        key.cmp(self.as_bytes())
    }
}

impl Probe for Row {
    ghost bytes = { key_of };

    fn against(&self, key: &[u8]) -> Ordering {
        compare(key, self.values())
    }
}

/// How a key compares with that of values. It takes no memory.
fn compare(key: &[u8], values: &[Value]) -> Ordering
    ensures { result ≡ key_cmp key.now (key_of values.now) }
{
    let mut left = key;
    for value in values {
        match past_value(left, value) {
            Ok(rest) => left = rest,
            Err(order) => return order,
        }
    }
    if left.is_empty() {
        Ordering::Equal
    } else {
        Ordering::Greater
    }
}

/// What follows the key of a value, or how the bytes compare with all that begin with it.
fn past_value<'a>(bytes: &'a [u8], value: &Value) -> Result<&'a [u8], Ordering>
    ensures { MatchResult result
        (λ rest. bytes.now ≡ value_key value.now ++ rest.now)
        (λ order. (more : List ℕ) → key_cmp bytes.now (value_key value.now ++ more) ≡ order) }
{
    match value {
        Value::Int(number) => past(bytes, &int_bytes(*number)),
        Value::Text(text) => past_text(bytes, text.as_bytes()),
    }
}

fn past_text<'a>(bytes: &'a [u8], text: &[u8]) -> Result<&'a [u8], Ordering>
    ensures { MatchResult result
        (λ rest. bytes.now ≡ text_key text.now ++ rest.now)
        (λ order. (more : List ℕ) → key_cmp bytes.now (text_key text.now ++ more) ≡ order) }
{
    if text.contains(&0) {
        return past_escaped(bytes, text);
    }
    match past(bytes, text) {
        Ok(rest) => past(rest, b"\0\0"),
        Err(order) => Err(order),
    }
}

fn past_escaped<'a>(bytes: &'a [u8], text: &[u8]) -> Result<&'a [u8], Ordering>
    ensures { MatchResult result
        (λ rest. bytes.now ≡ text_key text.now ++ rest.now)
        (λ order. (more : List ℕ) → key_cmp bytes.now (text_key text.now ++ more) ≡ order) }
{
    let mut left = bytes;
    for byte in text {
        match past_byte(left, *byte) {
            Ok(rest) => left = rest,
            Err(order) => return Err(order),
        }
    }
    past(left, b"\0\0")
}

fn past_byte(bytes: &[u8], byte: u8) -> Result<&[u8], Ordering>
    ensures { MatchResult result
        (λ rest. bytes.now ≡ byte_key byte ++ rest.now)
        (λ order. (more : List ℕ) → key_cmp bytes.now (byte_key byte ++ more) ≡ order) }
{
    if byte == 0 {
        past(bytes, &[0, 255])
    } else {
        past(bytes, &[byte])
    }
}

/// What follows a beginning, or how the bytes compare with all that begin so.
fn past<'a>(bytes: &'a [u8], front: &[u8]) -> Result<&'a [u8], Ordering>
    ensures { MatchResult result
        (λ rest. bytes.now ≡ front.now ++ rest.now)
        (λ order. (more : List ℕ) → key_cmp bytes.now (front.now ++ more) ≡ order) }
{
    if bytes.len() < front.len() {
        return Err(bytes.cmp(front));
    }
    let (begin, rest) = bytes.split_at(front.len());
    if are_same_bytes(begin, front) {
        return Ok(rest);
    }
    Err(bytes.cmp(front))
}

pub(crate) fn are_same_bytes(left: &[u8], right: &[u8]) -> bool
    ensures { IsTrue result ↔ (left.now ≡ right.now) }
{
    left == right
}
