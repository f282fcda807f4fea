//! Values as they are printed.
ghost use Rattle.std.specs.Prelude.{◌≡◌};
ghost use Rattle.ent_value.specs.Refusal.{Gives};
ghost use Rattle.ent_text.specs.Pieces.{negative_at, positive_at, text_at, value_at};

use crate::line_fault::LineFault;
use crate::line_numeral::{number, number_to};
use crate::line_quoted::content;
use crate::tail;
use ent_value::{LONGEST_TEXT, Refusal, Text, Value};
use std::alloc::Global;

/// A text behind its opening quote.
#[tactic(auto, unfolding(crate::specs::Pieces::text_at))]
fn text(alloc: Global, bytes: &[u8]) -> Result<(Value, &[u8]), Refusal<LineFault>>
    ensures { Gives (λ x. (x.0, x.1.now)) result (text_at bytes.now) }
{
    let (content, rest) = content(alloc, bytes)?;
    if content.len() > LONGEST_TEXT {
        return Err(Refusal::Fault(LineFault::Misfit));
    }
    Ok((Value::Text(Text::from_vec(content)), rest))
}

/// A number behind its minus sign.
#[tactic(auto, unfolding(crate::specs::Pieces::negative_at))]
fn negative(bytes: &[u8]) -> Result<(Value, &[u8]), Refusal<LineFault>>
    ensures { Gives (λ x. (x.0, x.1.now)) result (negative_at bytes.now) }
{
    let (magnitude, rest) = number_to(9_223_372_036_854_775_808, bytes)?;
    if magnitude == 0 {
        return Err(Refusal::Fault(LineFault::Misfit));
    }
    Ok((Value::Int(-((magnitude - 1) as i64) - 1), rest))
}

/// A number without a sign.
#[tactic(auto, unfolding(crate::specs::Pieces::positive_at))]
fn positive(bytes: &[u8]) -> Result<(Value, &[u8]), Refusal<LineFault>>
    ensures { Gives (λ x. (x.0, x.1.now)) result (positive_at bytes.now) }
{
    let (magnitude, rest) = number(bytes)?;
    Ok((Value::Int(magnitude as i64), rest))
}

/// A value at the front, and the bytes behind it.
#[tactic(auto, unfolding(crate::specs::Pieces::value_at))]
pub fn value(alloc: Global, bytes: &[u8]) -> Result<(Value, &[u8]), Refusal<LineFault>>
    ensures { Gives (λ x. (x.0, x.1.now)) result (value_at bytes.now) }
{
    match bytes.first() {
        Some(b'\'') => text(alloc, tail(bytes, 1)),
        Some(b'-') => negative(tail(bytes, 1)),
        _ => positive(bytes),
    }
}
