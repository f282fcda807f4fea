//! The token at the front.
ghost use Rattle.std.specs.Prelude.{◌≡◌, drop};
ghost use Rattle.ent_value.specs.declared.refusal.Refusal.TheVariants.{Fault};
ghost use Rattle.ent_value.specs.Refusal.{Gives};
ghost use Rattle.ent_text.specs.declared.grammar_fault.GrammarFault.TheVariants.{Unexpected, TooMany};
ghost use Rattle.ent_text.specs.Read.{place_of};
ghost use Rattle.ent_text.specs.Front.{begins_with_word, begins_with_sign, begins_with_divider, word_at, sign_at};

use crate::divider::Divider;
use crate::grammar_fault::GrammarFault;
use crate::{Keyword, Symbol, TokenView, Tokens};
use ent_value::Refusal;

/// The fault that the first of these tokens can't stand there.
pub fn unexpected(end: usize, tokens: &Tokens<'_>) -> Refusal<GrammarFault>
    ensures { result ≡ Fault (Unexpected (place_of end tokens.now)) }
{
    Refusal::Fault(GrammarFault::Unexpected(tokens.start(end)))
}

/// The fault that what begins there is too much.
pub fn too_many(end: usize, tokens: &Tokens<'_>) -> Refusal<GrammarFault>
    ensures { result ≡ Fault (TooMany (place_of end tokens.now)) }
{
    Refusal::Fault(GrammarFault::TooMany(tokens.start(end)))
}

/// Whether this reserved word stands at the front.
pub fn begins_with_word(word: Keyword, tokens: &Tokens<'_>) -> bool
    ensures { result ≡ begins_with_word word tokens.now }
{
    match tokens.front() {
        Some(TokenView::Word(found)) => *found == word,
        _ => false,
    }
}

/// Whether this symbol stands at the front.
pub fn begins_with_sign(sign: Symbol, tokens: &Tokens<'_>) -> bool
    ensures { result ≡ begins_with_sign sign tokens.now }
{
    match tokens.front() {
        Some(TokenView::Sign(found)) => *found == sign,
        _ => false,
    }
}

/// Whether this divider stands at the front.
pub fn begins_with_divider(divider: Divider, tokens: &Tokens<'_>) -> bool
    ensures { result ≡ begins_with_divider divider tokens.now }
{
    match divider {
        Divider::Comma => begins_with_sign(Symbol::Comma, tokens),
        Divider::And => begins_with_word(Keyword::And, tokens),
    }
}

/// Where the first of these tokens stands, which is passed over.
fn taken(end: usize, tokens: &mut Tokens<'_>) -> usize
    ensures place { result ≡ place_of end tokens.old }
    ensures behind { tokens.new ≡ drop 1 tokens.old }
{
    let place = tokens.start(end);
    tokens.advance();
    place
}

/// Passes over this reserved word, and tells where it stood. Where it doesn't stand at the front, nothing is known of
/// the tokens that are left.
pub fn word_at(
    word: Keyword,
    end: usize,
    tokens: &mut Tokens<'_>,
) -> Result<usize, Refusal<GrammarFault>>
    ensures { Gives (λ x. (x, tokens.new)) result (word_at word end tokens.old) }
{
    match tokens.front() {
        Some(TokenView::Word(found)) if *found == word => Ok(taken(end, tokens)),
        _ => Err(unexpected(end, tokens)),
    }
}

/// Passes over this symbol, and tells where it stood. Where it doesn't stand at the front, nothing is known of the
/// tokens that are left.
pub fn sign_at(
    sign: Symbol,
    end: usize,
    tokens: &mut Tokens<'_>,
) -> Result<usize, Refusal<GrammarFault>>
    ensures { Gives (λ x. (x, tokens.new)) result (sign_at sign end tokens.old) }
{
    match tokens.front() {
        Some(TokenView::Sign(found)) if *found == sign => Ok(taken(end, tokens)),
        _ => Err(unexpected(end, tokens)),
    }
}
