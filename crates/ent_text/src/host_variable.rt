//! Host variables.
ghost use Rattle.std.specs.Prelude.{◌≡◌, ◌<◌, length};
ghost use Rattle.ent_value.specs.Name.{IsWord};
ghost use Rattle.ent_text.specs.Lexing.{host_variable_at};
ghost use Rattle.ent_text.specs.View.{kind_seen, CanBeMade, Sees};
ghost use Rattle.ent_text.specs.declared.token.TokenKind.TheVariants.{HostVariable};

use crate::bytes::{byte_at, tail};
use crate::fault::TextFault;
use crate::view::TokenView;
use crate::word::word_len;
use ent_value::LONGEST_NAME;

fn view_of(word: &[u8]) -> TokenView<'_>
    requires { IsWord word.now }
    ensures kind { kind_seen result ≡ HostVariable word.now }
    ensures made { CanBeMade result }
{
    TokenView::HostVariable(word)
}

/// The host variable that these bytes begin, the first being its `@`, and the bytes behind it.
#[tactic(auto, unfolding(crate::specs::Lexing::host_variable_at))]
pub(crate) fn host_variable_at(
    place: usize,
    bytes: &[u8],
) -> Result<(Option<TokenView<'_>>, &[u8]), TextFault>
    requires { 0 < length bytes.now }
    ensures { Sees result (host_variable_at place bytes.now) }
{
    let behind = tail(bytes, 1);
    if !byte_at(behind, 0).is_ascii_alphabetic() {
        return Err(TextFault::BadChar(place));
    }
    let (word, rest) = behind.split_at(word_len(behind));
    if word.len() > LONGEST_NAME {
        return Err(TextFault::TextTooLong(place));
    }
    Ok((Some(view_of(word)), rest))
}
