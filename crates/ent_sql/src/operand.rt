//! Values and operands.
ghost use Rattle.std.specs.Prelude.{◌≡◌};
ghost use Rattle.ent_value.specs.Refusal.{Gives};
ghost use Rattle.ent_text.specs.Grammar.{reads};
ghost use Rattle.ent_sql.specs.Operands.{identifier, host_variable, negative, unsigned, column_reference};

use crate::front::{
    begins_with_literal, begins_with_name, begins_with_operand, begins_with_value,
    begins_with_variable,
};
use crate::list::Item;
use ent_text::{
    GrammarFault, Symbol, TokenView, Tokens, begins_with_sign, sign_at, text_of, unexpected,
};
use ent_tree::{Boxed, ColumnReference, Identifier, Literal, Operand, Term, ValueSpecification};
use ent_value::{Name, Refusal, Text, Value};
use std::alloc::Global;

/// The name at the front.
#[tactic(auto, unfolding(crate::specs::Operands::identifier))]
pub(crate) fn name_at(
    alloc: Global,
    end: usize,
    tokens: &mut Tokens<'_>,
) -> Result<Identifier, Refusal<GrammarFault>>
    ensures { Gives (λ x. (x, tokens.new)) result (reads identifier end tokens.old) }
{
    match tokens.front() {
        Some(TokenView::Name(word)) => {
            let name = Name::new(alloc, word)?;
            let place = tokens.start(end);
            tokens.advance();
            Ok(Identifier { name, place })
        }
        _ => Err(unexpected(end, tokens)),
    }
}

/// The host variable at the front.
#[tactic(auto, unfolding(crate::specs::Operands::host_variable))]
pub(crate) fn variable_at(
    alloc: Global,
    end: usize,
    tokens: &mut Tokens<'_>,
) -> Result<Identifier, Refusal<GrammarFault>>
    ensures { Gives (λ x. (x, tokens.new)) result (reads host_variable end tokens.old) }
{
    match tokens.front() {
        Some(TokenView::HostVariable(word)) => {
            let name = Name::new(alloc, word)?;
            let place = tokens.start(end);
            tokens.advance();
            Ok(Identifier { name, place })
        }
        _ => Err(unexpected(end, tokens)),
    }
}

/// A minus sign and the number behind it.
#[tactic(auto, unfolding(crate::specs::Operands::negative))]
fn negative_at(end: usize, tokens: &mut Tokens<'_>) -> Result<Literal, Refusal<GrammarFault>>
    ensures { Gives (λ x. (x, tokens.new)) result (reads negative end tokens.old) }
{
    let place = sign_at(Symbol::Minus, end, tokens)?;
    match tokens.front() {
        Some(TokenView::Number(number)) => {
            let value = Value::Int(number.negative());
            tokens.advance();
            Ok(Literal { value, place })
        }
        _ => Err(unexpected(end, tokens)),
    }
}

#[tactic(auto, unfolding(crate::specs::Operands::unsigned, crate::specs::Operands::positive, crate::specs::Operands::quoted))]
fn unsigned_at(
    alloc: Global,
    end: usize,
    tokens: &mut Tokens<'_>,
) -> Result<Literal, Refusal<GrammarFault>>
    ensures { Gives (λ x. (x, tokens.new)) result (reads unsigned end tokens.old) }
{
    let value = match tokens.front() {
        Some(TokenView::Number(number)) => Value::Int(number.positive()),
        Some(TokenView::Literal(content)) => Value::Text(Text::from_bytes(alloc, content)?),
        Some(TokenView::Doubled(behind)) => Value::Text(text_of(alloc, behind)?),
        _ => return Err(unexpected(end, tokens)),
    };
    let place = tokens.start(end);
    tokens.advance();
    Ok(Literal { value, place })
}

/// A name, with another behind it where a dot follows.
#[tactic(auto, unfolding(crate::specs::Operands::column_reference))]
fn reference_at(
    alloc: Global,
    end: usize,
    tokens: &mut Tokens<'_>,
) -> Result<ColumnReference, Refusal<GrammarFault>>
    ensures { Gives (λ x. (x, tokens.new)) result (reads column_reference end tokens.old) }
{
    let first = name_at(alloc, end, tokens)?;
    if begins_with_sign(Symbol::Dot, tokens) {
        sign_at(Symbol::Dot, end, tokens)?;
        let column = name_at(alloc, end, tokens)?;
        let qualifier = Some(Boxed::new(alloc, first)?);
        Ok(ColumnReference { qualifier, column })
    } else {
        let qualifier = None;
        let column = first;
        Ok(ColumnReference { qualifier, column })
    }
}

impl Item for Literal {
    ghost use Rattle.ent_sql.specs.Operands.{literal};

    ghost grammar = { literal };

    fn is_start(tokens: &Tokens<'_>) -> bool {
        begins_with_literal(tokens)
    }

    #[tactic(auto, unfolding(crate::specs::Operands::literal, crate::specs::Operands::negative))]
    fn read(
        alloc: Global,
        end: usize,
        tokens: &mut Tokens<'_>,
    ) -> Result<Self, Refusal<GrammarFault>> {
        if begins_with_sign(Symbol::Minus, tokens) {
            negative_at(end, tokens)
        } else {
            unsigned_at(alloc, end, tokens)
        }
    }
}

impl Item for ValueSpecification {
    ghost use Rattle.ent_sql.specs.Operands.{value};

    ghost grammar = { value };

    fn is_start(tokens: &Tokens<'_>) -> bool {
        begins_with_value(tokens)
    }

    #[tactic(auto, unfolding(crate::specs::Operands::value, crate::specs::Operands::host_variable))]
    fn read(
        alloc: Global,
        end: usize,
        tokens: &mut Tokens<'_>,
    ) -> Result<Self, Refusal<GrammarFault>> {
        if begins_with_variable(tokens) {
            let variable = variable_at(alloc, end, tokens)?;
            Ok(ValueSpecification::HostVariable(variable))
        } else {
            let literal = Literal::read(alloc, end, tokens)?;
            Ok(ValueSpecification::Literal(literal))
        }
    }
}

impl Item for Operand {
    ghost use Rattle.ent_sql.specs.Operands.{operand};

    ghost grammar = { operand };

    fn is_start(tokens: &Tokens<'_>) -> bool {
        begins_with_operand(tokens)
    }

    #[tactic(auto, unfolding(crate::specs::Operands::operand, crate::specs::Operands::column_reference, crate::specs::Operands::identifier))]
    fn read(
        alloc: Global,
        end: usize,
        tokens: &mut Tokens<'_>,
    ) -> Result<Self, Refusal<GrammarFault>> {
        if begins_with_name(tokens) {
            let column = reference_at(alloc, end, tokens)?;
            Ok(Operand::Column(column))
        } else {
            let value = ValueSpecification::read(alloc, end, tokens)?;
            Ok(Operand::Value(value))
        }
    }
}

impl Item for Term {
    ghost use Rattle.ent_sql.specs.Operands.{term};

    ghost grammar = { term };

    #[tactic(auto, unfolding(crate::specs::Operands::term, crate::specs::Operands::operand, crate::specs::Operands::column_reference, crate::specs::Operands::identifier, crate::specs::Operands::value, crate::specs::Operands::host_variable, crate::specs::Operands::literal, crate::specs::Operands::negative, crate::specs::Operands::unsigned, crate::specs::Operands::positive, crate::specs::Operands::quoted))]
    fn is_start(tokens: &Tokens<'_>) -> bool {
        begins_with_operand(tokens)
    }

    #[tactic(auto, unfolding(crate::specs::Operands::term, crate::specs::Operands::identifier))]
    fn read(
        alloc: Global,
        end: usize,
        tokens: &mut Tokens<'_>,
    ) -> Result<Self, Refusal<GrammarFault>> {
        if begins_with_name(tokens) {
            let variable = name_at(alloc, end, tokens)?;
            Ok(Term::Variable(variable))
        } else {
            let value = ValueSpecification::read(alloc, end, tokens)?;
            Ok(Term::Value(value))
        }
    }
}
