//! Words.
ghost use Rattle.std.specs.Prelude.{◌≡◌, ◌+◌, ◌≤◌, IfOk, length, slice_index, true};
ghost use Rattle.std.specs.List.{prefix_len};
ghost use Rattle.std.specs.Char.{is_ascii_alphabetic};
ghost use Rattle.ent_value.specs.Name.{is_word_byte, IsWord};
ghost use Rattle.ent_text.specs.Lexing.{word_at, word_kind};
ghost use Rattle.ent_text.specs.View.{kind_seen, CanBeMade, FindsWord};

use crate::bytes::{byte_at, tail};
use crate::fault::TextFault;
use crate::keyword::keyword_of;
use crate::view::TokenView;
use ent_value::{LONGEST_NAME, is_word_byte};

/// How many letters stand in front.
fn letters_len(bytes: &[u8]) -> usize
    ensures value { result ≡ prefix_len is_ascii_alphabetic bytes.now }
    ensures bound { result ≤ length bytes.now }
{
    bytes
        .iter()
        .take_while(|byte| byte.is_ascii_alphabetic())
        .count()
}

/// How many letters, digits and `_` stand behind the letters of a word: mostly none, before a byte below all of them.
#[tactic(auto, using(crate::proofs::Letters::word_ends))]
fn mixed_len(bytes: &[u8]) -> usize
    ensures value { result ≡ prefix_len is_word_byte bytes.now }
    ensures bound { result ≤ length bytes.now }
{
    if byte_at(bytes, 0) < b'0' {
        return 0;
    }
    bytes.iter().take_while(|byte| is_word_byte(**byte)).count()
}

/// How many letters, digits and `_` stand in front. Most words have letters alone, so these are counted first.
#[inline(always)]
#[tactic(auto, using(crate::proofs::Letters::word_goes_on))]
pub fn word_len(bytes: &[u8]) -> usize
    ensures value { result ≡ prefix_len is_word_byte bytes.now }
    ensures bound { result ≤ length bytes.now }
{
    let letters = letters_len(bytes);
    let behind = tail(bytes, letters);
    letters + mixed_len(behind)
}

/// A word as a token: a reserved word, or a name.
pub(crate) fn view_of(word: &[u8]) -> TokenView<'_>
    requires { IsWord word.now }
    ensures kind { kind_seen result ≡ word_kind word.now }
    ensures made { CanBeMade result }
{
    match keyword_of(word) {
        Some(keyword) => TokenView::Word(keyword),
        None => TokenView::Name(word),
    }
}

/// The bytes of the word at the front, the first being a letter, and the bytes behind it.
#[tactic(auto, unfolding(crate::specs::Lexing::word_at))]
pub(crate) fn word_and_rest(place: usize, bytes: &[u8]) -> Result<(&[u8], &[u8]), TextFault>
    requires { is_ascii_alphabetic (slice_index bytes.now 0) ≡ true }
    ensures word { FindsWord result (word_at place bytes.now) }
    ensures halves { IfOk result (λ found. length found.0.now + length found.1.now ≡ length bytes.now) }
{
    let (word, rest) = bytes.split_at(word_len(bytes));
    if word.len() > LONGEST_NAME {
        return Err(TextFault::TextTooLong(place));
    }
    Ok((word, rest))
}
