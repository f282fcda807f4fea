//! Rows as they are printed.
ghost use Rattle.std.specs.Prelude.{◌≡◌, length};
ghost use Rattle.ent_value.specs.Refusal.{Gives};
ghost use Rattle.ent_text.specs.Pieces.{behind, divided_at, more_at, row_at, with_value};

use crate::line_fault::LineFault;
use crate::printed::value;
use crate::tail;
use ent_value::{Refusal, Row, Value};
use std::alloc::Global;

/// The bytes behind these, where they stand in front.
#[tactic(auto, unfolding(crate::specs::Pieces::behind))]
pub fn behind<'a>(word: &[u8], bytes: &'a [u8]) -> Result<&'a [u8], Refusal<LineFault>>
    ensures { Gives (λ rest. rest.now) result (behind word.now bytes.now) }
{
    match bytes.strip_prefix(word) {
        Some(rest) => Ok(rest),
        None => Err(Refusal::Fault(LineFault::Misfit)),
    }
}

/// A value behind a comma and a space.
#[tactic(auto, unfolding(crate::specs::Pieces::divided_at))]
fn divided(alloc: Global, bytes: &[u8]) -> Result<(Value, &[u8]), Refusal<LineFault>>
    ensures { Gives (λ x. (x.0, x.1.now)) result (divided_at bytes.now) }
{
    let rest = behind(b", ", bytes)?;
    value(alloc, rest)
}

/// The values of a row behind its first, up to the closing parenthesis, with the first one, and the bytes behind it.
fn more(
    alloc: Global,
    first: Value,
    bytes: &[u8],
) -> Result<(Vec<Value>, &[u8]), Refusal<LineFault>>
    ensures { Gives (λ x. (x.0.items, x.1.now)) result
        (with_value first (more_at (length bytes.now) bytes.now)) }
{
    let mut values = Vec::new(alloc);
    values.push(first)?;
    let mut rest = bytes;
    while rest.len() > 0 {
        if rest[0] == b')' {
            return Ok((values, tail(rest, 1)));
        }
        match divided(alloc, rest) {
            Ok((value, next)) => {
                values.push(value)?;
                rest = next;
            }
            Err(refusal) => return Err(refusal),
        }
    }
    Err(Refusal::Fault(LineFault::Misfit))
}

/// A row at the front, of one value at least, and the bytes behind it.
#[tactic(auto, unfolding(crate::specs::Pieces::row_at))]
pub fn row(alloc: Global, bytes: &[u8]) -> Result<(Row, &[u8]), Refusal<LineFault>>
    ensures { Gives (λ x. (x.0, x.1.now)) result (row_at bytes.now) }
{
    let inner = behind(b"(", bytes)?;
    let (first, rest) = value(alloc, inner)?;
    let (values, rest) = more(alloc, first, rest)?;
    Ok((Row::from_vec(values), rest))
}
