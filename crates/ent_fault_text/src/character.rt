//! What is said of faults of tokens.
use crate::scene::Scene;
use crate::whole::Whole;
use crate::words::{Quantity, Wording};
use ent_text::TextFault;
use ent_value::{LONGEST_NAME, LONGEST_TEXT};
use std::alloc::AllocError;

/// What is said of the first fault of the tokens.
pub(crate) fn text_fault(scene: &Scene<'_>, fault: TextFault) -> Result<Wording, AllocError> {
    let alloc = scene.alloc;
    let rest = scene.text.get(scene.offset..).unwrap_or("");
    match fault {
        TextFault::BadChar(_) => match rest.chars().next() {
            Some(c) => bad_character(scene, c),
            None => Ok(Wording::plain(format!(in alloc; "a character can't stand here")?)),
        },
        TextFault::OpenText(_) => Wording::hinted(
            alloc,
            format!(in alloc; "this text has no closing quote")?,
            "a ' in a text is written twice: ''",
        ),
        TextFault::NumberTooLarge(_) => Ok(Wording::plain(format!(in alloc;
            "this number is above 9223372036854775807, the greatest"
        )?)),
        TextFault::TextTooLong(_) => too_long(scene, rest),
    }
}

/// A text or a word that is too long; its beginning says which.
fn too_long(scene: &Scene<'_>, rest: &str) -> Result<Wording, AllocError> {
    let alloc = scene.alloc;
    if rest.starts_with('\'') {
        let most = LONGEST_TEXT;
        let sentence = format!(in alloc; "this text has more than {most} bytes")?;
        return Ok(Wording::plain(sentence));
    }
    let length = word_length(rest.strip_prefix('@').unwrap_or(rest));
    let bytes = Quantity(length, "byte");
    let most = LONGEST_NAME;
    let sentence = format!(in alloc; "this word has {bytes}, and at most {most} can stand in one")?;
    Ok(Wording::plain(sentence))
}

/// How many letters, digits and `_` stand in front.
pub(crate) fn word_length(text: &str) -> usize {
    let mut length = 0usize;
    for byte in text.bytes() {
        if !byte.is_ascii_alphanumeric() && byte != b'_' {
            break;
        }
        length = length.saturating_add(1);
    }
    length
}

/// A character that can't stand in a text, or begins no token.
fn bad_character(scene: &Scene<'_>, c: char) -> Result<Wording, AllocError> {
    let alloc = scene.alloc;
    let code = c as u32;
    let sentence = match c {
        '\n' | '\r' => format!(in alloc; "a text ends on its line, and this one doesn't")?,
        _ if c.is_control() => {
            format!(in alloc; "the control character U+{code:04X} can't stand here")?
        }
        _ if is_unseen(c) => format!(in alloc; "the character U+{code:04X} can't stand here")?,
        _ => format!(in alloc; "{c} can't stand here")?,
    };
    match hint_of(scene.whole, c) {
        Some(hint) => Wording::hinted(alloc, sentence, hint),
        None => Ok(Wording::plain(sentence)),
    }
}

/// Whether a character can't be seen: white space other than a blank, or one without width at a text's beginning.
fn is_unseen(c: char) -> bool {
    c.is_whitespace() || c == '\u{feff}' || c == '\u{200b}'
}

/// What is written in the place of a character.
fn hint_of(whole: Whole, c: char) -> Option<&'static str> {
    match c {
        '\n' | '\r' => {
            Some("perhaps its closing quote is missing, or a ' in it isn't written twice")
        }
        _ if c.is_control() => None,
        '\u{feff}' => Some(match whole {
            Whole::Input => "an input has no byte order mark",
            Whole::Script => "a script has no byte order mark",
        }),
        _ if is_unseen(c) => Some("white space is space, tab, CR and LF"),
        '"' | '`' | '\u{2018}' | '\u{2019}' | '\u{201c}' | '\u{201d}' => {
            Some("a text is written in single quotes, as 'LA', and a name without quotes")
        }
        '@' | ':' | '?' | '$' => Some(
            "a host variable is @ and a word directly behind it, as @day",
        ),
        '/' | '#' => Some(
            "a comment goes from -- to the end of its line, and numbers aren't divided",
        ),
        '%' | '^' | '&' | '|' => Some(
            "numbers are added and subtracted alone, and texts not at all",
        ),
        '!' => Some("not equal is <> or !="),
        '_' => Some("a name begins with a letter"),
        '[' | ']' | '{' | '}' => Some("lists stand in ( and )"),
        _ if c.is_alphabetic() => Some("a name has the letters A to Z, digits and _"),
        _ => None,
    }
}
