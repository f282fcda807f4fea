//! A piece of a text: a token, or a gap of white space or a comment.
ghost use Rattle.std.specs.Prelude.{◌≡◌, ◌<◌, ◌≤◌, ◌+◌, ◌^◌, false, length, IfOk, IfSome, IfNone, slice_index};
ghost use Rattle.std.specs.List.{prefix_len};
ghost use Rattle.std.specs.Char.{is_ascii_alphabetic, is_ascii_digit};
ghost use Rattle.ent_text.specs.Spelling.{is_blank};
ghost use Rattle.ent_text.specs.Lexing.{number_at, value_from, text_at, symbol_at, piece_at};
ghost use Rattle.ent_text.specs.View.{content, kind_seen, CanBeMade, Encloses, Sees, IsBehind};
ghost use Rattle.ent_text.specs.declared.token.TokenKind.TheVariants.{Literal};
ghost use Rattle.ent_value.specs.declared.text.TheConstants.{LONGEST_TEXT};

use crate::bytes::{byte_at, tail};
use crate::comment::{begins_comment, behind_line};
use crate::fault::TextFault;
use crate::host_variable::host_variable_at;
use crate::numeral::Numeral;
use crate::quoted::quoted_len;
use crate::symbol::symbol_of;
use crate::view::TokenView;
use crate::word::word_and_rest;
use ent_value::LONGEST_TEXT;

pub(crate) fn is_blank(byte: u8) -> bool
    ensures { result ≡ is_blank byte }
{
    byte == b' ' || byte == b'\t' || byte == b'\r' || byte == b'\n'
}

/// How many digits stand in front.
pub fn digits_len(bytes: &[u8]) -> usize
    ensures value { result ≡ prefix_len is_ascii_digit bytes.now }
    ensures bound { result ≤ length bytes.now }
{
    bytes
        .iter()
        .take_while(|byte| byte.is_ascii_digit())
        .count()
}

/// The value of digits, where it is no larger than the limit of a number.
#[tactic(auto, using(crate::proofs::Reading::value_grows))]
fn value_of(digits: &[u8]) -> Option<Numeral>
    ensures some { IfSome result (λ value. value ≡ value_from 0 digits.now) }
    ensures bound { IfSome result (λ value. value ≤ 9223372036854775807) }
    ensures none { IfNone result (9223372036854775807 < value_from 0 digits.now) }
{
    let mut value: u64 = 0;
    for digit in digits {
        if value > 922337203685477580 {
            return None;
        }
        value = value * 10 + digit.saturating_sub(b'0') as u64;
        if value > 9223372036854775807 {
            return None;
        }
    }
    Some(Numeral::new(value))
}

#[tactic(auto, unfolding(crate::specs::Lexing::number_at))]
fn number_at(place: usize, bytes: &[u8]) -> Result<(Option<TokenView<'_>>, &[u8]), TextFault>
    ensures { Sees result (number_at place bytes.now) }
{
    let (digits, rest) = bytes.split_at(digits_len(bytes));
    let Some(value) = value_of(digits) else {
        return Err(TextFault::NumberTooLarge(place));
    };
    Ok((Some(TokenView::Number(value)), rest))
}

/// The text with so long a content whose opening quote stands just before these bytes, the last `left` of which stand
/// behind its closing quote. Where no quote is doubled its content is there as it is.
fn literal_of(behind: &[u8], len: usize, left: usize) -> TokenView<'_>
    requires text { Encloses behind.now len left }
    requires limit { len ≤ LONGEST_TEXT }
    ensures kind { kind_seen result ≡ Literal (content behind.now) }
    ensures made { CanBeMade result }
{
    if behind.len() - left == len + 1 {
        TokenView::Literal(behind.split_at(len).0)
    } else {
        TokenView::Doubled(behind)
    }
}

#[tactic(auto, unfolding(crate::specs::Lexing::text_at))]
fn text_at(place: usize, bytes: &[u8]) -> Result<(Option<TokenView<'_>>, &[u8]), TextFault>
    requires room { place + length bytes.now < 2 ^ 64 }
    requires nonempty { 0 < length bytes.now }
    ensures { Sees result (text_at place bytes.now) }
{
    let behind = tail(bytes, 1);
    let (len, rest) = quoted_len(place, place + 1, behind)?;
    if len > LONGEST_TEXT {
        return Err(TextFault::TextTooLong(place));
    }
    Ok((Some(literal_of(behind, len, rest.len())), rest))
}

#[inline(always)]
#[tactic(auto, unfolding(crate::specs::Lexing::symbol_at))]
fn symbol_at(place: usize, bytes: &[u8]) -> Result<(Option<TokenView<'_>>, &[u8]), TextFault>
    ensures { Sees result (symbol_at place bytes.now) }
{
    let Some((symbol, len)) = symbol_of(byte_at(bytes, 0), byte_at(bytes, 1)) else {
        return Err(TextFault::BadChar(place));
    };
    Ok((
        Some(TokenView::Sign(symbol)),
        bytes.get(len..).unwrap_or(&[]),
    ))
}

/// The bytes behind the piece at the front, which is no blank. No reserved word is looked up.
#[inline(always)]
#[tactic(auto, unfolding(crate::specs::Lexing::piece_at))]
pub(crate) fn behind_piece(place: usize, bytes: &[u8]) -> Result<&[u8], TextFault>
    requires room { place + length bytes.now < 2 ^ 64 }
    requires nonempty { 0 < length bytes.now }
    requires visible { is_blank (slice_index bytes.now 0) ≡ false }
    ensures value { IsBehind result (piece_at place bytes.now) }
    ensures shorter { IfOk result (λ rest. length rest.now < length bytes.now) }
{
    if bytes[0].is_ascii_alphabetic() {
        match word_and_rest(place, bytes) {
            Ok((_, rest)) => Ok(rest),
            Err(fault) => Err(fault),
        }
    } else {
        match other_piece(place, bytes) {
            Ok((_, rest)) => Ok(rest),
            Err(fault) => Err(fault),
        }
    }
}

/// The piece at the front where that is no blank and no word, and the bytes behind it. Most are symbols, which are read
/// at once.
#[inline(always)]
#[tactic(auto, unfolding(crate::specs::Lexing::piece_at))]
pub(crate) fn wordless_piece(
    place: usize,
    bytes: &[u8],
) -> Result<(Option<TokenView<'_>>, &[u8]), TextFault>
    requires room { place + length bytes.now < 2 ^ 64 }
    requires nonempty { 0 < length bytes.now }
    requires visible { is_blank (slice_index bytes.now 0) ≡ false }
    requires wordless { is_ascii_alphabetic (slice_index bytes.now 0) ≡ false }
    ensures { Sees result (piece_at place bytes.now) }
{
    let first = bytes[0];
    if first.is_ascii_digit() || first == b'\'' || first == b'@' || first == b'-' {
        other_piece(place, bytes)
    } else {
        symbol_at(place, bytes)
    }
}

/// The piece at the front where that is no blank and no word, and the bytes behind it.
#[inline(never)]
#[tactic(auto, unfolding(crate::specs::Lexing::piece_at))]
pub(crate) fn other_piece(
    place: usize,
    bytes: &[u8],
) -> Result<(Option<TokenView<'_>>, &[u8]), TextFault>
    requires room { place + length bytes.now < 2 ^ 64 }
    requires nonempty { 0 < length bytes.now }
    requires visible { is_blank (slice_index bytes.now 0) ≡ false }
    requires wordless { is_ascii_alphabetic (slice_index bytes.now 0) ≡ false }
    ensures { Sees result (piece_at place bytes.now) }
{
    let first = bytes[0];
    if first.is_ascii_digit() {
        number_at(place, bytes)
    } else if first == b'\'' {
        text_at(place, bytes)
    } else if first == b'@' {
        host_variable_at(place, bytes)
    } else if begins_comment(bytes) {
        Ok((None, behind_line(bytes)))
    } else {
        symbol_at(place, bytes)
    }
}
