//! Tokens.
use crate::fault::TextFault;
use crate::keyword::Keyword;
use crate::numeral::Numeral;
use crate::symbol::Symbol;
use ent_value::{Name, Text};

/// What a token is, with what it says.
#[derive(Debug, Drop)]
pub enum TokenKind {
    Word(Keyword),
    Name(Name),
    /// The word directly behind an `@`; it may be a reserved one.
    HostVariable(Name),
    Number(Numeral),
    /// The content of a text, each doubled quote being one.
    Literal(Text),
    Sign(Symbol),
    /// No token, but the first fault of the text, where [`Tokens`](crate::Tokens) end before the text does.
    Fault(TextFault),
}

/// A token: the bytes from `start` up to `end`, counted from the text's start.
#[derive(Debug, Drop)]
pub struct Token {
    pub kind: TokenKind,
    pub start: usize,
    pub end: usize,
}
