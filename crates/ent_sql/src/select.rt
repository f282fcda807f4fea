//! SELECT over tables.
ghost use Rattle.std.specs.Prelude.{◌≡◌};
ghost use Rattle.ent_value.specs.Refusal.{Gives};
ghost use Rattle.ent_text.specs.Grammar.{reads};
ghost use Rattle.ent_sql.specs.Selects.{source, tests, select_behind, items, select};

use crate::front::begins_with_name;
use crate::list::{Item, listed};
use crate::operand::name_at;
use ent_text::{
    Divider, GrammarFault, Keyword, Symbol, Tokens, begins_with_sign, begins_with_word, sign_at,
    word_at,
};
use ent_tree::{Boxed, Items, MOST_PARTS, Operand, Select, Source, Test};
use ent_value::{Limited, Refusal};
use std::alloc::Global;

#[tactic(auto, unfolding(crate::specs::Selects::source, crate::specs::Operands::identifier))]
fn source_at(
    alloc: Global,
    end: usize,
    tokens: &mut Tokens<'_>,
) -> Result<Source, Refusal<GrammarFault>>
    ensures { Gives (λ x. (x, tokens.new)) result (reads source end tokens.old) }
{
    let table = name_at(alloc, end, tokens)?;
    if begins_with_word(Keyword::As, tokens) {
        word_at(Keyword::As, end, tokens)?;
        let name = name_at(alloc, end, tokens)?;
        let alias = Some(Boxed::new(alloc, name)?);
        Ok(Source { table, alias })
    } else if begins_with_name(tokens) {
        let name = name_at(alloc, end, tokens)?;
        let alias = Some(Boxed::new(alloc, name)?);
        Ok(Source { table, alias })
    } else {
        let alias = None;
        Ok(Source { table, alias })
    }
}

impl Item for Source {
    ghost use Rattle.ent_sql.specs.Selects.{source};

    ghost grammar = { source };

    #[tactic(auto, unfolding(crate::specs::Selects::source, crate::specs::Operands::identifier))]
    fn is_start(tokens: &Tokens<'_>) -> bool {
        begins_with_name(tokens)
    }

    fn read(
        alloc: Global,
        end: usize,
        tokens: &mut Tokens<'_>,
    ) -> Result<Self, Refusal<GrammarFault>> {
        source_at(alloc, end, tokens)
    }
}

#[tactic(auto, unfolding(crate::specs::Selects::tests))]
pub(crate) fn tests_at(
    alloc: Global,
    end: usize,
    tokens: &mut Tokens<'_>,
) -> Result<Limited<Test<Operand>, MOST_PARTS>, Refusal<GrammarFault>>
    ensures { Gives (λ x. (x, tokens.new)) result (reads tests end tokens.old) }
{
    if begins_with_word(Keyword::Where, tokens) {
        word_at(Keyword::Where, end, tokens)?;
        listed(alloc, Divider::And, end, tokens)
    } else {
        Ok(Limited::new(alloc))
    }
}

/// The SELECT that shows these items, from its FROM on.
#[tactic(auto, unfolding(crate::specs::Selects::select_behind))]
pub(crate) fn select_behind(
    alloc: Global,
    items: Items,
    end: usize,
    tokens: &mut Tokens<'_>,
) -> Result<Select, Refusal<GrammarFault>>
    ensures { Gives (λ x. (x, tokens.new)) result (reads (select_behind items) end tokens.old) }
{
    word_at(Keyword::From, end, tokens)?;
    let sources = listed(alloc, Divider::Comma, end, tokens)?;
    let tests = tests_at(alloc, end, tokens)?;
    Ok(Select {
        items,
        sources,
        tests,
    })
}

#[tactic(auto, unfolding(crate::specs::Selects::items))]
fn items_at(
    alloc: Global,
    end: usize,
    tokens: &mut Tokens<'_>,
) -> Result<Items, Refusal<GrammarFault>>
    ensures { Gives (λ x. (x, tokens.new)) result (reads items end tokens.old) }
{
    if begins_with_sign(Symbol::Star, tokens) {
        sign_at(Symbol::Star, end, tokens)?;
        Ok(Items::All)
    } else {
        let items = listed(alloc, Divider::Comma, end, tokens)?;
        Ok(Items::Listed(items))
    }
}

#[tactic(auto, unfolding(crate::specs::Selects::select))]
pub(crate) fn select_at(
    alloc: Global,
    end: usize,
    tokens: &mut Tokens<'_>,
) -> Result<Select, Refusal<GrammarFault>>
    ensures { Gives (λ x. (x, tokens.new)) result (reads select end tokens.old) }
{
    word_at(Keyword::Select, end, tokens)?;
    let items = items_at(alloc, end, tokens)?;
    select_behind(alloc, items, end, tokens)
}
