//! A token seen where it stands.
ghost use Rattle.std.specs.Prelude.{◌≡◌, IfOk};

use crate::fault::TextFault;
use crate::keyword::Keyword;
use crate::numeral::Numeral;
use crate::quoted::text_of;
use crate::symbol::Symbol;
use crate::token::TokenKind;
use ent_value::{Name, Text};
use std::alloc::{AllocError, Global};

/// What a token is, seen where it stands in its text: nothing is copied.
#[derive(Clone, Copy)]
pub enum TokenView<'a> {
    Word(Keyword),
    Name(&'a [u8]),
    /// The word directly behind an `@`.
    HostVariable(&'a [u8]),
    Number(Numeral),
    /// The content of a text in which no quote is doubled.
    Literal(&'a [u8]),
    /// What stands behind the opening quote of a text in which quotes are doubled, up to the end of all.
    Doubled(&'a [u8]),
    Sign(Symbol),
    /// No token, but the first fault of the text.
    Fault(TextFault),
}

impl<'a> TokenView<'a> {
    ghost use Rattle.ent_text.specs.View.{kind_seen, CanBeMade};

    /// The token, with a copy of what it says.
    pub(crate) fn make(&self, alloc: Global) -> Result<TokenKind, AllocError>
        requires { CanBeMade self.now }
        ensures { IfOk result (λ kind. kind ≡ kind_seen self.now) }
    {
        match self {
            TokenView::Word(keyword) => Ok(TokenKind::Word(*keyword)),
            TokenView::Name(word) => Ok(TokenKind::Name(Name::new(alloc, word)?)),
            TokenView::HostVariable(word) => Ok(TokenKind::HostVariable(Name::new(alloc, word)?)),
            TokenView::Number(number) => Ok(TokenKind::Number(*number)),
            TokenView::Literal(content) => Ok(TokenKind::Literal(Text::from_bytes(
                alloc, content,
            )?)),
            TokenView::Doubled(behind) => Ok(TokenKind::Literal(text_of(alloc, behind)?)),
            TokenView::Sign(symbol) => Ok(TokenKind::Sign(*symbol)),
            TokenView::Fault(fault) => Ok(TokenKind::Fault(*fault)),
        }
    }
}
