//! Lists of things, up to a limit.
ghost use Rattle.std.specs.Prelude.{◌≡◌, ◌<◌, ◌-◌, ◌++◌, length};
ghost use Rattle.ent_value.specs.Refusal.{Gives};
ghost use Rattle.ent_text.specs.Read.{begins};
ghost use Rattle.ent_text.specs.Class.{among};
ghost use Rattle.ent_text.specs.Grammar.{Grammar, give, chain, more, firsts, reads, listed, many};

use ent_text::{Divider, GrammarFault, Tokens, begins_with_divider, too_many, unexpected};
use ent_value::{Limited, Refusal};
use std::alloc::Global;

/// A thing of which lists are made.
pub trait Item: Drop {
    ghost grammar: { Grammar Self };

    /// Whether the token at the front begins one.
    fn is_start(tokens: &Tokens<'_>) -> bool
        ensures { result ≡ begins (among (firsts grammar)) tokens.now };

    /// Reads one, and passes over its tokens. After an error reading has ended: some tokens may have been passed over.
    fn read(
        alloc: Global,
        end: usize,
        tokens: &mut Tokens<'_>,
    ) -> Result<Self, Refusal<GrammarFault>>
        ensures { Gives (λ x. (x, tokens.new)) result (reads grammar end tokens.old) };
}

/// Things that were read, and those behind them, each behind a divider: `LIMIT` at most in all.
pub fn appended<T: Item, const LIMIT: usize>(
    alloc: Global,
    divider: Divider,
    before: Limited<T, LIMIT>,
    end: usize,
    tokens: &mut Tokens<'_>,
) -> Result<Limited<T, LIMIT>, Refusal<GrammarFault>>
    ensures { Gives (λ x. (x, tokens.new)) result
        (reads (chain (more (LIMIT - length before) divider T.grammar) (λ xs. give (before ++ xs))) end tokens.old) }
{
    let mut items = before;
    let mut left = LIMIT - items.len();
    'things: while begins_with_divider(divider, tokens) {
        tokens.advance();
        if left == 0 {
            if T::is_start(tokens) {
                return Err(too_many(end, tokens));
            }
            return Err(unexpected(end, tokens));
        }
        let item = T::read(alloc, end, tokens)?;
        items.push(item)?;
        left -= 1;
    }
    Ok(items)
}

/// Things with dividers between them: one at least, `LIMIT` at most. They keep room for one more at most.
pub fn listed<T: Item, const LIMIT: usize>(
    alloc: Global,
    divider: Divider,
    end: usize,
    tokens: &mut Tokens<'_>,
) -> Result<Limited<T, LIMIT>, Refusal<GrammarFault>>
    requires { 0 < LIMIT }
    ensures { Gives (λ x. (x, tokens.new)) result (reads (listed LIMIT divider T.grammar) end tokens.old) }
{
    let first = T::read(alloc, end, tokens)?;
    // Where a second thing follows there is room for it at once.
    let room = if begins_with_divider(divider, tokens) {
        2
    } else {
        1
    };
    let mut items = Limited::with_capacity(alloc, room)?;
    items.push(first)?;
    let items = appended(alloc, divider, items, end, tokens)?;
    Ok(items.shrunk())
}

/// Things one behind the other, `LIMIT` at most.
pub fn many<T: Item, const LIMIT: usize>(
    alloc: Global,
    end: usize,
    tokens: &mut Tokens<'_>,
) -> Result<Limited<T, LIMIT>, Refusal<GrammarFault>>
    ensures { Gives (λ x. (x, tokens.new)) result (reads (many LIMIT T.grammar) end tokens.old) }
{
    let mut items = Limited::new(alloc);
    let mut left = LIMIT;
    'things: while T::is_start(tokens) {
        if left == 0 {
            return Err(too_many(end, tokens));
        }
        let item = T::read(alloc, end, tokens)?;
        items.push(item)?;
        left -= 1;
    }
    Ok(items)
}
