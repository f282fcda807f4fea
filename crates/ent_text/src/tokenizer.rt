//! All tokens of a text.
ghost use Rattle.std.specs.Prelude.{IfOk, IfErr};
ghost use Rattle.std.specs.List.{All};
ghost use Rattle.ent_value.specs.Refusal.{Gives};
ghost use Rattle.ent_text.specs.Fault.{IfFault};
ghost use Rattle.ent_text.specs.Reading.{AreTokens, HasFault};
ghost use Rattle.ent_text.specs.Slices.{IsSliceOf, AreInOrder};
ghost use Rattle.ent_text.specs.Lexing.{tokens_of};

use crate::fault::TextFault;
use crate::left::{Tokens, fault_in};
use crate::token::Token;
use ent_value::{Refusal, Sequence};
use std::alloc::Global;

/// The tokens of a text, in order, or its first fault from the left. The text may hold any characters. Comments count
/// as white space. Words, host variables, numbers and texts beyond their limits are faults, so a token's value is
/// always within its type.
pub fn tokens(alloc: Global, text: &str) -> Result<Sequence<Token>, Refusal<TextFault>>
    // The text is gaps, of white space and comments, and these tokens in turn, each the longest possible.
    ensures found { IfOk result (λ tokens. AreTokens text.now tokens) }
    // Each token is spelled by the bytes between its places.
    ensures slices { IfOk result (λ tokens. All (λ token. IsSliceOf text.now token) tokens) }
    ensures order { IfOk result (λ tokens. AreInOrder tokens) }
    // The text is gaps and tokens up to a place, and what stands there has this fault.
    ensures fault { IfErr result (λ refusal. IfFault (λ fault. HasFault text.now fault) refusal) }
    // The same as a function of the text: `laws` says that it and the clauses above mean one thing.
    ensures exact { Gives (λ tokens. tokens) result (tokens_of text.now) }
{
    all_tokens(alloc, text)
}

fn all_tokens(alloc: Global, text: &str) -> Result<Sequence<Token>, Refusal<TextFault>>
    ensures { Gives (λ tokens. tokens) result (tokens_of text.now) }
{
    if let Some(fault) = fault_in(text) {
        return Err(Refusal::Fault(fault));
    }
    let mut left = Tokens::of(text);
    let mut found = Sequence::new(alloc);
    while let Some(view) = left.front() {
        let kind = view.make(alloc)?;
        let start = left.start(0);
        let end = left.end(0);
        found.push(Token { kind, start, end })?;
        left = left.tail();
    }
    Ok(found)
}
