//! What stands in quotes.
ghost use Rattle.std.specs.Prelude.{◌≡◌, ◌<◌, ◌≤◌, ◌+◌, ◌^◌, length, IfOk};
ghost use Rattle.std.specs.List.{prefix_len};
ghost use Rattle.ent_value.specs.Refusal.{Gives};
ghost use Rattle.ent_text.specs.Lexing.{quoted_at};
ghost use Rattle.ent_text.specs.View.{content, is_verbatim, IsContent, Measures};

use crate::bytes::{byte_at, tail};
use crate::fault::TextFault;
use ent_value::{Refusal, Text};
use std::alloc::{AllocError, Global};

/// Whether a byte stands in quotes as it is: no quote, and no control character.
fn is_verbatim(byte: u8) -> bool
    ensures { result ≡ is_verbatim byte }
{
    byte != b'\'' && !byte.is_ascii_control()
}

/// How many bytes in front stand in quotes as they are.
fn verbatim_len(bytes: &[u8]) -> usize
    ensures value { result ≡ prefix_len is_verbatim bytes.now }
    ensures bound { result ≤ length bytes.now }
{
    bytes.iter().take_while(|byte| is_verbatim(**byte)).count()
}

/// How long the content is of a text whose opening quote stands at `quote`, just before these bytes, and the bytes
/// behind its closing quote.
#[tactic(auto, unfolding(crate::specs::Lexing::quoted_at))]
pub(crate) fn quoted_len(
    quote: usize,
    place: usize,
    bytes: &[u8],
) -> Result<(usize, &[u8]), TextFault>
    requires { place + length bytes.now < 2 ^ 64 }
    ensures { Measures result (quoted_at quote place bytes.now) }
{
    let mut count = 0;
    let mut rest = bytes;
    let mut at = place;
    loop {
        let len = verbatim_len(rest);
        rest = tail(rest, len);
        at += len;
        count += len;
        if rest.is_empty() {
            return Err(TextFault::OpenText(quote));
        }
        if rest[0] != b'\'' {
            return Err(TextFault::BadChar(at));
        }
        if byte_at(rest, 1) != b'\'' {
            return Ok((count, tail(rest, 1)));
        }
        rest = tail(rest, 2);
        at += 2;
        count += 1;
    }
}

/// How long the content is of a text whose opening quote stands just before these bytes; 0 where it isn't closed.
fn content_len(behind: &[u8]) -> usize {
    match quoted_len(0, 0, behind) {
        Ok((len, _)) => len,
        Err(_) => 0,
    }
}

/// The text whose opening quote stands just before these bytes.
pub fn text_of(alloc: Global, behind: &[u8]) -> Result<Text, AllocError>
    requires { IsContent behind.now }
    ensures { IfOk result (λ text. text ≡ content behind.now) }
{
    match quoted_at(alloc, content_len(behind), 0, 0, behind) {
        Ok((text, _)) => Ok(Text::from_vec(text)),
        Err(Refusal::Memory) => Err(AllocError),
        Err(Refusal::Fault(_)) => unreachable!(),
    }
}

/// The content of a text whose opening quote stands at `quote`, just before these bytes, and the bytes behind its
/// closing quote. It makes room for a content of this length at once; a longer one takes more room as it comes. The
/// first byte stands at `place`: both places are for the fault alone.
#[tactic(auto, unfolding(crate::specs::Lexing::quoted_at))]
pub fn quoted_at(
    alloc: Global,
    len: usize,
    quote: usize,
    place: usize,
    bytes: &[u8],
) -> Result<(Vec<u8>, &[u8]), Refusal<TextFault>>
    requires { place + length bytes.now < 2 ^ 64 }
    ensures { Gives (λ x. (x.0.items, x.1.now)) result (quoted_at quote place bytes.now) }
{
    let mut content = Vec::with_capacity(alloc, len)?;
    let mut rest = bytes;
    let mut at = place;
    while rest.len() > 0 {
        let byte = rest[0];
        if byte == b'\'' {
            if rest.len() < 2 || rest[1] != b'\'' {
                return Ok((content, tail(rest, 1)));
            }
            content.push(b'\'')?;
            rest = tail(rest, 2);
            at += 2;
        } else {
            if byte.is_ascii_control() {
                return Err(Refusal::Fault(TextFault::BadChar(at)));
            }
            content.push(byte)?;
            rest = tail(rest, 1);
            at += 1;
        }
    }
    Err(Refusal::Fault(TextFault::OpenText(quote)))
}
