//! Symbols.
ghost use Rattle.std.specs.Prelude.{◌≡◌};
ghost use Rattle.ent_text.specs.Lexing.{symbol_of};

/// A symbol; `!=` is read as `<>`.
#[derive(Clone, Copy, Debug, PartialEq, Eq)]
pub enum Symbol {
    Open,
    Close,
    Comma,
    Semicolon,
    Dot,
    Star,
    Plus,
    Minus,
    Equal,
    NotEqual,
    Less,
    LessOrEqual,
    Greater,
    GreaterOrEqual,
}

/// The longest symbol that two bytes begin, and its length.
#[tactic(auto, unfolding(crate::specs::Lexing::symbol_of))]
pub(crate) fn symbol_of(first: u8, second: u8) -> Option<(Symbol, usize)>
    ensures value { result ≡ symbol_of first second }
{
    match first {
        b'(' => Some((Symbol::Open, 1)),
        b')' => Some((Symbol::Close, 1)),
        b',' => Some((Symbol::Comma, 1)),
        b';' => Some((Symbol::Semicolon, 1)),
        b'.' => Some((Symbol::Dot, 1)),
        b'*' => Some((Symbol::Star, 1)),
        b'+' => Some((Symbol::Plus, 1)),
        b'-' => Some((Symbol::Minus, 1)),
        b'=' => Some((Symbol::Equal, 1)),
        b'<' => match second {
            b'>' => Some((Symbol::NotEqual, 2)),
            b'=' => Some((Symbol::LessOrEqual, 2)),
            _ => Some((Symbol::Less, 1)),
        },
        b'>' => match second {
            b'=' => Some((Symbol::GreaterOrEqual, 2)),
            _ => Some((Symbol::Greater, 1)),
        },
        b'!' => match second {
            b'=' => Some((Symbol::NotEqual, 2)),
            _ => None,
        },
        _ => None,
    }
}
