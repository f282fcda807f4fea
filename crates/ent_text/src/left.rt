//! What is left of a text, as its tokens.
ghost use Rattle.std.specs.Prelude.{◌≡◌, ◌<◌, ◌+◌, ◌^◌, Ok, Err, drop, false, length, slice_index, true};
ghost use Rattle.std.specs.Prelude.{[], ◌∷◌, IfNone, IfSome, List, ℕ};
ghost use Rattle.std.specs.Char.{is_ascii_alphabetic};
ghost use Rattle.ent_text.specs.Left.{tokens_left, fault_among, IsFaultlessBefore, EndsInFault};
ghost use Rattle.ent_text.specs.Left.{kind_of_first, start_of_first, end_of_first};
ghost use Rattle.ent_text.specs.Lexing.{tokens_of};
ghost use Rattle.ent_text.specs.Reading.{AreTokens, HasFault};
ghost use Rattle.ent_text.specs.Spelling.{is_blank};
ghost use Rattle.ent_text.specs.declared.fault.TextFault.{TextFault};
ghost use Rattle.ent_text.specs.declared.token.Token.{Token};
ghost use Rattle.ent_text.specs.declared.token.TokenKind.TheVariants.{Fault};

use crate::bytes::{from, tail};
use crate::fault::TextFault;
use crate::piece::{behind_piece, is_blank, wordless_piece};
use crate::view::TokenView;
use crate::word::{view_of, word_and_rest};
use std::marker::Model;

/// The tokens that are left of a text, of which contracts see the list. They end where the text does, or with its first
/// fault. A token is read where it stands, once those before it are taken, so they take no memory, however many they
/// are.
#[derive(Drop)]
pub struct Tokens<'a> {
    front: Option<TokenView<'a>>,
    start: usize,
    end: usize,
    behind: &'a [u8],
}

impl<'a> Model for Tokens<'a> {
    ghost use Rattle.std.specs.Prelude.{List};
    ghost use Rattle.ent_text.specs.declared.token.Token.{Token};
    ghost use Rattle.ent_text.specs.Left.{tokens_seen, IsReadOn};

    ghost Value = { List Token };

    ghost view = { λ t. tokens_seen t.front t.start t.end t.behind.now };

    ghost invariant = { λ t. IsReadOn t.front t.end t.behind.now };
}

/// The first fault of the bytes from a place on, if they have one. A blank is passed over at once: of a text's pieces
/// many are blanks.
fn first_fault(place: usize, bytes: &[u8]) -> Option<TextFault>
    requires { place + length bytes.now < 2 ^ 64 }
    ensures { result ≡ fault_among (tokens_left place bytes.now) }
{
    let mut rest = bytes;
    let mut at = place;
    while rest.len() > 0 {
        if is_blank(rest[0]) {
            rest = tail(rest, 1);
            at += 1;
            continue;
        }
        match behind_piece(at, rest) {
            Ok(behind) => {
                at += rest.len() - behind.len();
                rest = behind;
            }
            Err(fault) => return Some(fault),
        }
    }
    None
}

/// The first fault of a text, if it has one.
pub fn fault_in(text: &str) -> Option<TextFault>
    ensures none { IfNone result (tokens_of text.now ≡ Ok (tokens_left 0 text.now)) }
    ensures some { IfSome result (λ fault. tokens_of text.now ≡ Err fault) }
{
    first_fault(0, text.as_bytes())
}

/// The first fault of a text, if it has one, where it is known that none stands before a place at which a token stands,
/// or which is the text's end. What stands before isn't gone through.
pub fn fault_from(text: &str, place: usize) -> Option<TextFault>
    requires { IsFaultlessBefore text.now place }
    ensures none { IfNone result (tokens_of text.now ≡ Ok (tokens_left 0 text.now)) }
    ensures some { IfSome result (λ fault. tokens_of text.now ≡ Err fault) }
{
    first_fault(place, from(text.as_bytes(), place))
}

/// The fault at a place, and nothing behind it: so many bytes are left there.
fn ended_by<'a>(fault: TextFault, place: usize, left: usize) -> Tokens<'a>
    requires { place + left < 2 ^ 64 }
    ensures { result ≡ record { kind = Fault fault; start = place; end = place + left } ∷ [] }
{
    Tokens {
        front: Some(TokenView::Fault(fault)),
        start: place,
        end: place + left,
        behind: &[],
    }
}

/// The tokens of the bytes from a place on, the first of which is a word. They are made where the word is found: most
/// tokens are words, and a piece that is handed on is copied.
#[inline(always)]
fn tokens_from_word(place: usize, bytes: &[u8]) -> Tokens<'_>
    requires room { place + length bytes.now < 2 ^ 64 }
    requires nonempty { 0 < length bytes.now }
    requires visible { is_blank (slice_index bytes.now 0) ≡ false }
    requires letter { is_ascii_alphabetic (slice_index bytes.now 0) ≡ true }
    ensures { result ≡ tokens_left place bytes.now }
{
    match word_and_rest(place, bytes) {
        Ok((word, behind)) => Tokens {
            front: Some(view_of(word)),
            start: place,
            end: place + (bytes.len() - behind.len()),
            behind,
        },
        Err(fault) => ended_by(fault, place, bytes.len()),
    }
}

/// The tokens of the bytes from a place on. A blank is passed over at once here too.
fn tokens_from(place: usize, bytes: &[u8]) -> Tokens<'_>
    requires room { place + length bytes.now < 2 ^ 64 }
    ensures { result ≡ tokens_left place bytes.now }
{
    let mut rest = bytes;
    let mut start = place;
    while rest.len() > 0 {
        if is_blank(rest[0]) {
            rest = tail(rest, 1);
            start += 1;
            continue;
        }
        if rest[0].is_ascii_alphabetic() {
            return tokens_from_word(start, rest);
        }
        match wordless_piece(start, rest) {
            Ok((front, behind)) => {
                let end = start + (rest.len() - behind.len());
                let Some(view) = front else {
                    rest = behind;
                    start = end;
                    continue;
                };
                return Tokens {
                    front: Some(view),
                    start,
                    end,
                    behind,
                };
            }
            Err(fault) => return ended_by(fault, start, rest.len()),
        }
    }
    Tokens {
        front: None,
        start,
        end: start,
        behind: rest,
    }
}

impl<'a> Tokens<'a> {
    ghost use Rattle.ent_text.specs.View.{kind_if_lent, CanBeMadeIfLent};

    /// The tokens of a text, up to its first fault.
    pub fn of(text: &'a str) -> Self
        ensures { result ≡ tokens_left 0 text.now }
    {
        tokens_from(0, text.as_bytes())
    }

    /// What the first of them is, if there is one.
    pub fn front(&self) -> Option<&TokenView<'a>>
        ensures kind { kind_if_lent result ≡ kind_of_first self.now }
        ensures made { CanBeMadeIfLent result }
    {
        self.front.as_ref()
    }

    /// Where the first of them stands; another place, if there is none.
    pub fn start(&self, none: usize) -> usize
        ensures { result ≡ start_of_first none self.now }
    {
        match &self.front {
            None => none,
            Some(_) => self.start,
        }
    }

    /// Where the first of them ends; another place, if there is none.
    pub fn end(&self, none: usize) -> usize
        ensures { result ≡ end_of_first none self.now }
    {
        match &self.front {
            None => none,
            Some(_) => self.end,
        }
    }

    /// Passes over the first.
    pub fn advance(&mut self)
        ensures { self.new ≡ drop 1 self.old }
    {
        *self = tokens_from(self.end, self.behind);
    }

    /// Those behind the first.
    pub fn tail(self) -> Tokens<'a>
        ensures { result ≡ drop 1 self.entry }
    {
        tokens_from(self.end, self.behind)
    }
}

/// The tokens up to the first fault are all tokens of a text without a fault. Of one with a fault they are those before
/// it, and the fault is the last.
pub fn fault_ends_tokens()
    ensures faultless { (text : List ℕ) (tokens : List Token) → AreTokens text tokens → tokens_left 0 text ≡ tokens }
    ensures faulty { (text : List ℕ) (fault : TextFault) → HasFault text fault → EndsInFault text fault }
{}
