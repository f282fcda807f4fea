//! How symbols are printed.
ghost use Rattle.std.specs.Prelude.{◌≡◌};
ghost use Rattle.ent_text.specs.Symbol.{symbol_text};
ghost use Rattle.ent_print.specs.Lexeme.{is_near_left, is_near_right};

use ent_text::Symbol;

pub(crate) fn symbol_text(symbol: Symbol) -> &'static [u8]
    ensures { result.now ≡ symbol_text symbol }
{
    match symbol {
        Symbol::Open => b"(",
        Symbol::Close => b")",
        Symbol::Comma => b",",
        Symbol::Semicolon => b";",
        Symbol::Dot => b".",
        Symbol::Star => b"*",
        Symbol::Plus => b"+",
        Symbol::Minus => b"-",
        Symbol::Equal => b"=",
        Symbol::NotEqual => b"<>",
        Symbol::Less => b"<",
        Symbol::LessOrEqual => b"<=",
        Symbol::Greater => b">",
        Symbol::GreaterOrEqual => b">=",
    }
}

/// Whether no space stands before it.
pub(crate) fn is_near_left(symbol: Symbol) -> bool
    ensures { result ≡ is_near_left symbol }
{
    matches!(
        symbol,
        Symbol::Comma | Symbol::Semicolon | Symbol::Close | Symbol::Dot
    )
}

/// Whether no space stands behind it.
pub(crate) fn is_near_right(symbol: Symbol) -> bool
    ensures { result ≡ is_near_right symbol }
{
    matches!(symbol, Symbol::Open | Symbol::Dot | Symbol::Semicolon)
}
