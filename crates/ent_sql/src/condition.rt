//! Conditions of entangled statements.
ghost use Rattle.std.specs.Prelude.{◌≡◌};
ghost use Rattle.ent_value.specs.Refusal.{Gives};
ghost use Rattle.ent_text.specs.Read.{begins};
ghost use Rattle.ent_text.specs.Class.{among, one};
ghost use Rattle.ent_text.specs.Grammar.{token, firsts, reads};
ghost use Rattle.ent_sql.specs.Operands.{comparison};
ghost use Rattle.ent_sql.specs.Entangling.{relation, membership, bracketed};
ghost use Rattle.ent_sql.specs.Entangling.{comparison_behind, tuple_behind, condition_behind, condition};
ghost use Rattle.ent_sql.specs.Entangling.{entangled_conditions};

use crate::front::begins_with_operand;
use crate::list::{Item, appended, listed};
use crate::operand::name_at;
use crate::select::select_at;
use crate::test::comparison_at;
use ent_text::{
    Divider, GrammarFault, Keyword, Symbol, TokenView, Tokens, begins_with_sign, begins_with_word,
    sign_at, unexpected, word_at,
};
use ent_tree::{Condition, Identifier, MOST_PARTS, Term, Test, Tuple};
use ent_value::{Limited, Refusal};
use std::alloc::Global;

/// The number 1, and where it stands.
pub(crate) fn one_at(end: usize, tokens: &mut Tokens<'_>) -> Result<usize, Refusal<GrammarFault>>
    ensures { Gives (λ x. (x, tokens.new)) result (reads (token one) end tokens.old) }
{
    match tokens.front() {
        Some(TokenView::Number(number)) => {
            if number.value() == 1 {
                let place = tokens.start(end);
                tokens.advance();
                Ok(place)
            } else {
                Err(unexpected(end, tokens))
            }
        }
        _ => Err(unexpected(end, tokens)),
    }
}

/// The name of an answer relation behind its ANSWER.
#[tactic(auto, unfolding(crate::specs::Entangling::relation))]
fn relation_at(
    alloc: Global,
    end: usize,
    tokens: &mut Tokens<'_>,
) -> Result<Identifier, Refusal<GrammarFault>>
    ensures { Gives (λ x. (x, tokens.new)) result (reads relation end tokens.old) }
{
    word_at(Keyword::Answer, end, tokens)?;
    name_at(alloc, end, tokens)
}

impl Item for Identifier {
    ghost use Rattle.ent_sql.specs.Entangling.{relation};

    ghost grammar = { relation };

    #[tactic(auto, unfolding(crate::specs::Entangling::relation, crate::specs::Operands::identifier))]
    fn is_start(tokens: &Tokens<'_>) -> bool {
        begins_with_word(Keyword::Answer, tokens)
    }

    fn read(
        alloc: Global,
        end: usize,
        tokens: &mut Tokens<'_>,
    ) -> Result<Self, Refusal<GrammarFault>> {
        relation_at(alloc, end, tokens)
    }
}

/// What a tuple is to be a row of.
#[tactic(auto, unfolding(crate::specs::Entangling::membership))]
fn membership_at(
    alloc: Global,
    tuple: Tuple,
    end: usize,
    tokens: &mut Tokens<'_>,
) -> Result<Condition, Refusal<GrammarFault>>
    ensures { Gives (λ x. (x, tokens.new)) result (reads (membership tuple) end tokens.old) }
{
    word_at(Keyword::In, end, tokens)?;
    if begins_with_sign(Symbol::Open, tokens) {
        sign_at(Symbol::Open, end, tokens)?;
        let select = select_at(alloc, end, tokens)?;
        sign_at(Symbol::Close, end, tokens)?;
        Ok(Condition::InSelect(tuple, select))
    } else {
        let relation = relation_at(alloc, end, tokens)?;
        Ok(Condition::InAnswer(tuple, relation))
    }
}

#[tactic(auto, unfolding(crate::specs::Entangling::bracketed))]
fn bracketed_at(
    alloc: Global,
    end: usize,
    tokens: &mut Tokens<'_>,
) -> Result<Condition, Refusal<GrammarFault>>
    ensures { Gives (λ x. (x, tokens.new)) result (reads bracketed end tokens.old) }
{
    let place = sign_at(Symbol::Open, end, tokens)?;
    let terms = listed(alloc, Divider::Comma, end, tokens)?;
    sign_at(Symbol::Close, end, tokens)?;
    membership_at(alloc, Tuple { place, terms }, end, tokens)
}

/// A test that begins with this term.
#[tactic(auto, unfolding(crate::specs::Entangling::comparison_behind))]
fn comparison_behind(
    alloc: Global,
    first: Term,
    end: usize,
    tokens: &mut Tokens<'_>,
) -> Result<Condition, Refusal<GrammarFault>>
    ensures { Gives (λ x. (x, tokens.new)) result (reads (comparison_behind first) end tokens.old) }
{
    let comparison = comparison_at(end, tokens)?;
    let right = Term::read(alloc, end, tokens)?;
    let left = first;
    Ok(Condition::Test(Test {
        left,
        comparison,
        right,
    }))
}

/// A tuple without parentheses that begins with this term, and what it is to be a row of.
#[tactic(auto, unfolding(crate::specs::Entangling::tuple_behind))]
fn tuple_behind(
    alloc: Global,
    first: Term,
    end: usize,
    tokens: &mut Tokens<'_>,
) -> Result<Condition, Refusal<GrammarFault>>
    ensures { Gives (λ x. (x, tokens.new)) result (reads (tuple_behind first) end tokens.old) }
{
    let place = first.place();
    let mut before = Limited::new(alloc);
    before.push(first)?;
    let terms = appended(alloc, Divider::Comma, before, end, tokens)?;
    membership_at(alloc, Tuple { place, terms }, end, tokens)
}

/// A condition that begins with this term.
#[tactic(auto, unfolding(crate::specs::Entangling::condition_behind, crate::specs::Entangling::comparison_behind, crate::specs::Operands::comparison))]
fn condition_behind(
    alloc: Global,
    first: Term,
    end: usize,
    tokens: &mut Tokens<'_>,
) -> Result<Condition, Refusal<GrammarFault>>
    ensures { Gives (λ x. (x, tokens.new)) result (reads (condition_behind first) end tokens.old) }
{
    if begins_with_comparison(tokens) {
        comparison_behind(alloc, first, end, tokens)
    } else {
        tuple_behind(alloc, first, end, tokens)
    }
}

#[tactic(auto, unfolding(crate::specs::Entangling::condition, crate::specs::Entangling::bracketed))]
fn condition_at(
    alloc: Global,
    end: usize,
    tokens: &mut Tokens<'_>,
) -> Result<Condition, Refusal<GrammarFault>>
    ensures { Gives (λ x. (x, tokens.new)) result (reads condition end tokens.old) }
{
    if begins_with_sign(Symbol::Open, tokens) {
        bracketed_at(alloc, end, tokens)
    } else {
        let first = Term::read(alloc, end, tokens)?;
        condition_behind(alloc, first, end, tokens)
    }
}

impl Item for Condition {
    ghost use Rattle.ent_sql.specs.Entangling.{condition};

    ghost grammar = { condition };

    #[tactic(auto, unfolding(crate::specs::Entangling::condition, crate::specs::Entangling::bracketed, crate::specs::Operands::term, crate::specs::Operands::operand, crate::specs::Operands::column_reference, crate::specs::Operands::identifier, crate::specs::Operands::value, crate::specs::Operands::host_variable, crate::specs::Operands::literal, crate::specs::Operands::negative, crate::specs::Operands::unsigned, crate::specs::Operands::positive, crate::specs::Operands::quoted))]
    fn is_start(tokens: &Tokens<'_>) -> bool {
        begins_with_sign(Symbol::Open, tokens) || begins_with_operand(tokens)
    }

    fn read(
        alloc: Global,
        end: usize,
        tokens: &mut Tokens<'_>,
    ) -> Result<Self, Refusal<GrammarFault>> {
        condition_at(alloc, end, tokens)
    }
}

#[tactic(auto, unfolding(crate::specs::Entangling::entangled_conditions))]
pub(crate) fn conditions_at(
    alloc: Global,
    end: usize,
    tokens: &mut Tokens<'_>,
) -> Result<Limited<Condition, MOST_PARTS>, Refusal<GrammarFault>>
    ensures { Gives (λ x. (x, tokens.new)) result (reads entangled_conditions end tokens.old) }
{
    if begins_with_word(Keyword::Where, tokens) {
        word_at(Keyword::Where, end, tokens)?;
        listed(alloc, Divider::And, end, tokens)
    } else {
        Ok(Limited::new(alloc))
    }
}

/// Whether a comparison stands at the front.
#[tactic(auto, unfolding(crate::specs::Operands::comparison))]
fn begins_with_comparison(tokens: &Tokens<'_>) -> bool
    ensures { result ≡ begins (among (firsts comparison)) tokens.now }
{
    matches!(
        tokens.front(),
        Some(TokenView::Sign(
            Symbol::Equal
                | Symbol::NotEqual
                | Symbol::Less
                | Symbol::LessOrEqual
                | Symbol::Greater
                | Symbol::GreaterOrEqual
        ))
    )
}
