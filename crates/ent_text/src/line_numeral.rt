//! Numbers as they are printed: in decimal, without leading zeros.
ghost use Rattle.std.specs.Prelude.{◌≡◌, ◌≤◌, ◌<◌, ◌^◌, IfOk, IfSome, IfNone};
ghost use Rattle.ent_value.specs.Refusal.{Gives};
ghost use Rattle.ent_text.specs.Lexing.{value_from};
ghost use Rattle.ent_text.specs.Pieces.{is_plain, number_at, number_to};

use crate::digits_len;
use crate::line_fault::LineFault;
use ent_value::Refusal;

/// The largest number that stands in a report where none of a table does.
const MOST: u64 = 9_223_372_036_854_775_807;

/// The value of digits, where it is no larger than the limit of a number.
fn value_of(digits: &[u8], most: u64) -> Option<u64>
    requires { most ≤ 9223372036854775808 }
    ensures some { IfSome result (λ value. value ≡ value_from 0 digits.now) }
    ensures bound { IfSome result (λ value. value ≤ most) }
    ensures none { IfNone result (most < value_from 0 digits.now) }
{
    let mut value: u64 = 0;
    for digit in digits {
        if value > 922337203685477580 {
            return None;
        }
        value = value * 10 + digit.saturating_sub(b'0') as u64;
        if value > most {
            return None;
        }
    }
    Some(value)
}

/// Whether digits stand there, and no zero before others.
fn is_plain(digits: &[u8]) -> bool
    ensures { result ≡ is_plain digits.now }
{
    match digits {
        [] => false,
        [_] => true,
        [first, ..] => *first != b'0',
    }
}

/// A number up to a limit at the front, and the bytes behind it.
#[tactic(auto, unfolding(crate::specs::Pieces::number_to))]
pub(crate) fn number_to(most: u64, bytes: &[u8]) -> Result<(u64, &[u8]), Refusal<LineFault>>
    requires { most ≤ 9223372036854775808 }
    ensures value { Gives (λ x. (x.0, x.1.now)) result (number_to most bytes.now) }
    ensures bound { IfOk result (λ x. x.0 ≤ most) }
{
    let (digits, rest) = bytes.split_at(digits_len(bytes));
    if !is_plain(digits) {
        return Err(Refusal::Fault(LineFault::Misfit));
    }
    let Some(value) = value_of(digits, most) else {
        return Err(Refusal::Fault(LineFault::Misfit));
    };
    Ok((value, rest))
}

/// A number at the front, 0 to 9223372036854775807, and the bytes behind it.
pub fn number(bytes: &[u8]) -> Result<(u64, &[u8]), Refusal<LineFault>>
    ensures value { Gives (λ x. (x.0, x.1.now)) result (number_at bytes.now) }
    ensures bound { IfOk result (λ x. x.0 ≤ 9223372036854775807) }
{
    number_to(MOST, bytes)
}
