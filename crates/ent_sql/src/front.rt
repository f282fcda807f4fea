//! What stands at the front.
ghost use Rattle.std.specs.Prelude.{◌≡◌};
ghost use Rattle.ent_text.specs.Read.{begins};
ghost use Rattle.ent_text.specs.Class.{among};
ghost use Rattle.ent_text.specs.Grammar.{firsts};
ghost use Rattle.ent_sql.specs.Front.{begins_with_name, begins_with_variable};
ghost use Rattle.ent_sql.specs.Operands.{literal, value, operand};

use ent_text::{Symbol, TokenView, Tokens};

pub fn begins_with_name(tokens: &Tokens<'_>) -> bool
    ensures { result ≡ begins_with_name tokens.now }
{
    matches!(tokens.front(), Some(TokenView::Name(_)))
}

pub fn begins_with_variable(tokens: &Tokens<'_>) -> bool
    ensures { result ≡ begins_with_variable tokens.now }
{
    matches!(tokens.front(), Some(TokenView::HostVariable(_)))
}

#[tactic(auto, unfolding(crate::specs::Operands::literal, crate::specs::Operands::negative, crate::specs::Operands::unsigned, crate::specs::Operands::positive, crate::specs::Operands::quoted))]
pub fn begins_with_literal(tokens: &Tokens<'_>) -> bool
    ensures { result ≡ begins (among (firsts literal)) tokens.now }
{
    matches!(
        tokens.front(),
        Some(
            TokenView::Number(_)
                | TokenView::Literal(_)
                | TokenView::Doubled(_)
                | TokenView::Sign(Symbol::Minus)
        )
    )
}

#[tactic(auto, unfolding(crate::specs::Operands::value, crate::specs::Operands::host_variable, crate::specs::Operands::literal, crate::specs::Operands::negative, crate::specs::Operands::unsigned, crate::specs::Operands::positive, crate::specs::Operands::quoted))]
pub fn begins_with_value(tokens: &Tokens<'_>) -> bool
    ensures { result ≡ begins (among (firsts value)) tokens.now }
{
    matches!(
        tokens.front(),
        Some(
            TokenView::HostVariable(_)
                | TokenView::Number(_)
                | TokenView::Literal(_)
                | TokenView::Doubled(_)
                | TokenView::Sign(Symbol::Minus)
        )
    )
}

#[tactic(auto, unfolding(crate::specs::Operands::operand, crate::specs::Operands::column_reference, crate::specs::Operands::identifier, crate::specs::Operands::value, crate::specs::Operands::host_variable, crate::specs::Operands::literal, crate::specs::Operands::negative, crate::specs::Operands::unsigned, crate::specs::Operands::positive, crate::specs::Operands::quoted))]
pub fn begins_with_operand(tokens: &Tokens<'_>) -> bool
    ensures { result ≡ begins (among (firsts operand)) tokens.now }
{
    matches!(
        tokens.front(),
        Some(
            TokenView::Name(_)
                | TokenView::HostVariable(_)
                | TokenView::Number(_)
                | TokenView::Literal(_)
                | TokenView::Doubled(_)
                | TokenView::Sign(Symbol::Minus)
        )
    )
}
