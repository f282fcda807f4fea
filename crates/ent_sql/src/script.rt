//! Scripts.
ghost use Rattle.std.specs.Prelude.{◌≡◌};
ghost use Rattle.ent_value.specs.Refusal.{Gives};
ghost use Rattle.ent_text.specs.Grammar.{reads, up_to};
ghost use Rattle.ent_tree.specs.declared.limits.TheConstants.{MOST_RUNS};
ghost use Rattle.ent_sql.specs.Scripts.{within, ending, script};

use crate::list::{Item, many};
use ent_text::{
    GrammarFault, Keyword, Symbol, TokenView, Tokens, begins_with_word, sign_at, too_many,
    unexpected, word_at,
};
use ent_tree::{DEFAULT_RUNS, End, MOST_RUNS, Runs, Script};
use ent_value::Refusal;
use std::alloc::Global;

/// A number from 1 on, which is too much where more runs are asked for than there may be.
fn runs_at(end: usize, tokens: &mut Tokens<'_>) -> Result<(Runs, usize), Refusal<GrammarFault>>
    ensures { Gives (λ x. (x, tokens.new)) result (reads (up_to MOST_RUNS) end tokens.old) }
{
    match tokens.front() {
        Some(TokenView::Number(number)) => {
            let runs = number.value();
            if runs < 1 {
                Err(unexpected(end, tokens))
            } else if runs <= MOST_RUNS {
                let place = tokens.start(end);
                tokens.advance();
                Ok((Runs::new(runs), place))
            } else {
                Err(too_many(end, tokens))
            }
        }
        _ => Err(unexpected(end, tokens)),
    }
}

#[tactic(auto, unfolding(crate::specs::Scripts::within))]
fn within_at(end: usize, tokens: &mut Tokens<'_>) -> Result<Runs, Refusal<GrammarFault>>
    ensures { Gives (λ x. (x, tokens.new)) result (reads within end tokens.old) }
{
    if begins_with_word(Keyword::Within, tokens) {
        word_at(Keyword::Within, end, tokens)?;
        let (runs, _) = match runs_at(end, tokens) {
            Ok(read) => read,
            Err(refusal) => return Err(refusal),
        };
        word_at(Keyword::Runs, end, tokens)?;
        Ok(runs)
    } else {
        Ok(Runs::new(DEFAULT_RUNS))
    }
}

#[tactic(auto, unfolding(crate::specs::Scripts::ending))]
fn ending_at(end: usize, tokens: &mut Tokens<'_>) -> Result<End, Refusal<GrammarFault>>
    ensures { Gives (λ x. (x, tokens.new)) result (reads ending end tokens.old) }
{
    if begins_with_word(Keyword::Commit, tokens) {
        word_at(Keyword::Commit, end, tokens)?;
        Ok(End::Commit)
    } else {
        word_at(Keyword::Rollback, end, tokens)?;
        Ok(End::Rollback)
    }
}

#[tactic(auto, unfolding(crate::specs::Scripts::script))]
pub(crate) fn script_at(
    alloc: Global,
    end: usize,
    tokens: &mut Tokens<'_>,
) -> Result<Script, Refusal<GrammarFault>>
    ensures { Gives (λ x. (x, tokens.new)) result (reads script end tokens.old) }
{
    word_at(Keyword::Begin, end, tokens)?;
    word_at(Keyword::Transaction, end, tokens)?;
    let within = match within_at(end, tokens) {
        Ok(read) => read,
        Err(refusal) => return Err(refusal),
    };
    sign_at(Symbol::Semicolon, end, tokens)?;
    let statements = many(alloc, end, tokens)?;
    let ended = ending_at(end, tokens)?;
    sign_at(Symbol::Semicolon, end, tokens)?;
    Ok(Script {
        within,
        statements: statements.shrunk(),
        end: ended,
    })
}

impl Item for Script {
    ghost use Rattle.ent_sql.specs.Scripts.{script};

    ghost grammar = { script };

    #[tactic(auto, unfolding(crate::specs::Scripts::script))]
    fn is_start(tokens: &Tokens<'_>) -> bool {
        begins_with_word(Keyword::Begin, tokens)
    }

    fn read(
        alloc: Global,
        end: usize,
        tokens: &mut Tokens<'_>,
    ) -> Result<Self, Refusal<GrammarFault>> {
        script_at(alloc, end, tokens)
    }
}
