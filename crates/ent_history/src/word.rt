//! Names as they are written.
ghost use Rattle.std.specs.Prelude.{◌≡◌, slice_index};
ghost use Rattle.std.specs.Option.{is_some};
ghost use Rattle.ent_value.specs.Name.{IsWord};
ghost use Rattle.ent_value.specs.Refusal.{Gives};
ghost use Rattle.ent_text.specs.Lexing.{keyword_of};
ghost use Rattle.ent_text.specs.View.{kind_seen};
ghost use Rattle.ent_history.specs.Names.{is_keyword, name_at};

use ent_text::{LineFault, TokenView, Tokens, word_len};
use ent_value::{Name, Refusal, is_word};
use std::alloc::Global;
use std::str;

/// The first byte, or 0 where none is left.
pub fn first_byte(bytes: &[u8]) -> u8
    ensures { result ≡ slice_index bytes.now 0 }
{
    bytes.get(0).copied().unwrap_or(0)
}

/// Whether a token is a reserved word.
fn is_keyword(view: &TokenView<'_>) -> bool
    ensures { result ≡ is_keyword (kind_seen view.now) }
{
    match view {
        TokenView::Word(_) => true,
        TokenView::Name(_) => false,
        TokenView::HostVariable(_) => false,
        TokenView::Number(_) => false,
        TokenView::Literal(_) => false,
        TokenView::Doubled(_) => false,
        TokenView::Sign(_) => false,
        TokenView::Fault(_) => false,
    }
}

/// Whether a word is reserved, in any case.
fn is_reserved(word: &[u8]) -> bool
    requires { IsWord word.now }
    ensures { result ≡ is_some (keyword_of word.now) }
{
    let Ok(text) = str::from_utf8(word) else {
        return false;
    };
    let tokens = Tokens::of(text);
    match tokens.front() {
        Some(view) => is_keyword(view),
        None => false,
    }
}

/// The name in front, and the bytes behind it: all letters, digits and `_` there, at most [`ent_value::LONGEST_NAME`],
/// and no reserved word.
#[tactic(auto, unfolding(crate::specs::Names::name_at))]
pub fn name(alloc: Global, bytes: &[u8]) -> Result<(Name, &[u8]), Refusal<LineFault>>
    ensures { Gives (λ x. (x.0, x.1.now)) result (name_at bytes.now) }
{
    let (word, rest) = bytes.split_at(word_len(bytes));
    if !is_word(word) {
        return Err(Refusal::Fault(LineFault::Misfit));
    }
    if is_reserved(word) {
        return Err(Refusal::Fault(LineFault::Misfit));
    }
    Ok((Name::new(alloc, word)?, rest))
}
