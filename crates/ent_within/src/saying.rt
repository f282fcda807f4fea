//! The scripts of a text, one by one.
ghost use Rattle.std.specs.Prelude.{◌≡◌, IfOk};
ghost use Rattle.ent_text.specs.Left.{tokens_left};
ghost use Rattle.ent_text.specs.View.{kind_seen};
ghost use Rattle.ent_within.specs.Said.{is_transaction, is_within, scripts_said};

use ent_text::{Keyword, TokenView, Tokens};
use std::alloc::{AllocError, Global};

fn is_transaction(token: &TokenView<'_>) -> bool
    ensures { result ≡ is_transaction (kind_seen token.now) }
{
    matches!(token, TokenView::Word(Keyword::Transaction))
}

fn is_within(token: &TokenView<'_>) -> bool
    ensures { result ≡ is_within (kind_seen token.now) }
{
    matches!(token, TokenView::Word(Keyword::Within))
}

/// Of each script of an input's text, in order, whether it says WITHIN. Of a text with a fault it says this of the
/// scripts that begin before its first fault of a token.
pub fn scripts_within(alloc: Global, text: &str) -> Result<Vec<bool>, AllocError>
    ensures { IfOk result (λ said. said.items ≡ scripts_said (tokens_left 0 text.now)) }
{
    let mut said = Vec::new(alloc);
    let mut behind = false;
    let mut tokens = Tokens::of(text);
    while let Some(token) = tokens.front() {
        let says = is_within(token);
        let begins = is_transaction(token);
        if behind {
            said.push(says)?;
        }
        behind = begins;
        tokens = tokens.tail();
    }
    Ok(said)
}
