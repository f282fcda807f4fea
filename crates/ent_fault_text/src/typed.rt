//! What is said where kinds differ.
use crate::kinds::TestSide;
use crate::scene::Scene;
use crate::schema::Column;
use crate::words::{Wording, other_than, with_article};
use ent_text::{Keyword, Symbol};
use ent_value::Kind;
use std::alloc::AllocError;

/// What isn't of the kind that is wanted at its place. There are two kinds, so what isn't of one is of the other.
pub(crate) fn wrong_kind(scene: &Scene<'_>) -> Result<Wording, AllocError> {
    let side = scene.side_ahead()?;
    if is_beside_sign(scene) && !matches!(side.kind, Some(Kind::Int)) {
        let alloc = scene.alloc;
        let text = side.text;
        let sentence = format!(in alloc;
            "{text} is a TEXT, and only an INT can be added or subtracted"
        )?;
        return Ok(Wording::plain(sentence));
    }
    if let Some(column) = inserted_column(scene) {
        return other_kind(scene, column.name, side, Some(other_than(column.kind)));
    }
    match scene.side_back()? {
        Some(left) => {
            let given = match left.kind {
                Some(kind) => Some(other_than(kind)),
                None => side.kind,
            };
            other_kind(scene, left.text, side, given)
        }
        None => of_item(scene, side),
    }
}

/// Whether the place stands beside `+` or `-`, as a term of a sum.
fn is_beside_sign(scene: &Scene<'_>) -> bool {
    let is_qualified = scene.is_at(1, ".");
    scene.is_at(-1, "+ -") || scene.is_at(1, "+ -") || is_qualified && scene.is_at(3, "+ -")
}

/// The column for which the value at the place is, in a row of values.
fn inserted_column<'a>(scene: &Scene<'a>) -> Option<Column<'a>> {
    let statement = scene.statement();
    if !statement.first()?.is_word(Keyword::Insert) {
        return None;
    }
    let table = scene.table(statement.get(2)?.text)?;
    let passed = statement.len().saturating_sub(scene.coming().len());
    let mut commas = 0usize;
    for mark in statement.get(..passed)? {
        if mark.is_sign(Symbol::Comma) {
            commas = commas.saturating_add(1);
        }
    }
    table.columns.get(commas).copied()
}

/// Something of this kind, where another thing is of the other.
fn other_kind(
    scene: &Scene<'_>,
    wanted: &str,
    side: TestSide<'_>,
    given: Option<Kind>,
) -> Result<Wording, AllocError> {
    let alloc = scene.alloc;
    let text = side.text;
    let Some(given) = given else {
        let sentence = format!(in alloc; "{wanted} and {text} are of two kinds")?;
        return Ok(Wording::plain(sentence));
    };
    let hint = quotes_hint(scene, text)?;
    let kind = with_article(given);
    let other = with_article(other_than(given));
    let sentence = format!(in alloc; "{wanted} is {other}, and {text} is {kind}")?;
    Ok(Wording { sentence, hint })
}

/// A term of a tuple that isn't of the kind of its sub-select's item.
fn of_item(scene: &Scene<'_>, side: TestSide<'_>) -> Result<Wording, AllocError> {
    let alloc = scene.alloc;
    let text = side.text;
    let hint = quotes_hint(scene, text)?;
    let sentence = match side.kind {
        Some(kind) => {
            let given = with_article(kind);
            let wanted = with_article(other_than(kind));
            format!(in alloc; "{text} is {given}, and its sub-select has {wanted} there")?
        }
        None => format!(in alloc; "{text} is of another kind than the item of its sub-select")?,
    };
    Ok(Wording { sentence, hint })
}

/// What helps where a number is written as a text, or a text as a number.
fn quotes_hint(scene: &Scene<'_>, text: &str) -> Result<Option<String>, AllocError> {
    let alloc = scene.alloc;
    if is_digits(text) {
        return Ok(Some(format!(in alloc; "a text is written in quotes: '{text}'")?));
    }
    if let Some(rest) = text.strip_prefix('\'')
        && let Some(digits) = rest.strip_suffix('\'')
        && is_digits(digits)
    {
        return Ok(Some(format!(in alloc; "a number is written without quotes: {digits}")?));
    }
    Ok(None)
}

/// Whether a text is digits, and not empty.
fn is_digits(text: &str) -> bool {
    for byte in text.bytes() {
        if !byte.is_ascii_digit() {
            return false;
        }
    }
    !text.is_empty()
}
