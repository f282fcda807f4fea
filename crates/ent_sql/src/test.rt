//! Comparisons, tests and expressions.
ghost use Rattle.std.specs.Prelude.{◌≡◌};
ghost use Rattle.ent_value.specs.Refusal.{Gives};
ghost use Rattle.ent_text.specs.Grammar.{reads};
ghost use Rattle.ent_sql.specs.Operands.{comparison, compared, expression_behind, expression};

use crate::front::begins_with_operand;
use crate::list::Item;
use ent_text::{GrammarFault, Symbol, Tokens, begins_with_sign, sign_at};
use ent_tree::{Boxed, Comparison, Expression, Operand, Test};
use ent_value::Refusal;
use std::alloc::Global;

#[tactic(auto, unfolding(crate::specs::Operands::comparison))]
pub(crate) fn comparison_at(
    end: usize,
    tokens: &mut Tokens<'_>,
) -> Result<Comparison, Refusal<GrammarFault>>
    ensures { Gives (λ x. (x, tokens.new)) result (reads comparison end tokens.old) }
{
    if begins_with_sign(Symbol::Equal, tokens) {
        sign_at(Symbol::Equal, end, tokens)?;
        Ok(Comparison::Equal)
    } else if begins_with_sign(Symbol::NotEqual, tokens) {
        sign_at(Symbol::NotEqual, end, tokens)?;
        Ok(Comparison::NotEqual)
    } else if begins_with_sign(Symbol::Less, tokens) {
        sign_at(Symbol::Less, end, tokens)?;
        Ok(Comparison::Less)
    } else if begins_with_sign(Symbol::LessOrEqual, tokens) {
        sign_at(Symbol::LessOrEqual, end, tokens)?;
        Ok(Comparison::LessOrEqual)
    } else if begins_with_sign(Symbol::Greater, tokens) {
        sign_at(Symbol::Greater, end, tokens)?;
        Ok(Comparison::Greater)
    } else {
        sign_at(Symbol::GreaterOrEqual, end, tokens)?;
        Ok(Comparison::GreaterOrEqual)
    }
}

#[tactic(auto, unfolding(crate::specs::Operands::compared))]
fn test_at<T: Item>(
    alloc: Global,
    end: usize,
    tokens: &mut Tokens<'_>,
) -> Result<Test<T>, Refusal<GrammarFault>>
    ensures { Gives (λ x. (x, tokens.new)) result (reads (compared T.grammar) end tokens.old) }
{
    let left = T::read(alloc, end, tokens)?;
    let comparison = comparison_at(end, tokens)?;
    let right = T::read(alloc, end, tokens)?;
    Ok(Test {
        left,
        comparison,
        right,
    })
}

impl Item for Test<Operand> {
    ghost use Rattle.ent_sql.specs.Operands.{compared, operand};

    ghost grammar = { compared operand };

    #[tactic(auto, unfolding(crate::specs::Operands::compared, crate::specs::Operands::operand, crate::specs::Operands::column_reference, crate::specs::Operands::identifier, crate::specs::Operands::value, crate::specs::Operands::host_variable, crate::specs::Operands::literal, crate::specs::Operands::negative, crate::specs::Operands::unsigned, crate::specs::Operands::positive, crate::specs::Operands::quoted))]
    fn is_start(tokens: &Tokens<'_>) -> bool {
        begins_with_operand(tokens)
    }

    fn read(
        alloc: Global,
        end: usize,
        tokens: &mut Tokens<'_>,
    ) -> Result<Self, Refusal<GrammarFault>> {
        test_at(alloc, end, tokens)
    }
}

/// The expression that begins with this thing.
#[tactic(auto, unfolding(crate::specs::Operands::expression_behind))]
fn expression_behind<T: Item>(
    alloc: Global,
    first: T,
    end: usize,
    tokens: &mut Tokens<'_>,
) -> Result<Expression<T>, Refusal<GrammarFault>>
    ensures { Gives (λ x. (x, tokens.new)) result (reads (expression_behind T.grammar first) end tokens.old) }
{
    if begins_with_sign(Symbol::Plus, tokens) {
        sign_at(Symbol::Plus, end, tokens)?;
        let second = T::read(alloc, end, tokens)?;
        Ok(Expression::Sum(first, Boxed::new(alloc, second)?))
    } else if begins_with_sign(Symbol::Minus, tokens) {
        sign_at(Symbol::Minus, end, tokens)?;
        let second = T::read(alloc, end, tokens)?;
        Ok(Expression::Difference(first, Boxed::new(alloc, second)?))
    } else {
        Ok(Expression::Single(first))
    }
}

#[tactic(auto, unfolding(crate::specs::Operands::expression))]
pub(crate) fn expression_at<T: Item>(
    alloc: Global,
    end: usize,
    tokens: &mut Tokens<'_>,
) -> Result<Expression<T>, Refusal<GrammarFault>>
    ensures { Gives (λ x. (x, tokens.new)) result (reads (expression T.grammar) end tokens.old) }
{
    let first = T::read(alloc, end, tokens)?;
    expression_behind(alloc, first, end, tokens)
}
