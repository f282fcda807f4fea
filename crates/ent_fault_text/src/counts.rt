//! What is said where numbers of values differ.
use crate::kinds::sources_of;
use crate::mark::{Mark, is_one, marks_behind};
use crate::scene::Scene;
use crate::words::{Quantity, Wording, listed};
use ent_text::{Keyword, Symbol};
use std::alloc::AllocError;

/// How many things stand in front, with a comma between each two, up to where parentheses close or a word ends them.
fn things(marks: &[Mark<'_>], end: Keyword) -> usize {
    let mut count = 1usize;
    let mut depth = 0usize;
    for mark in marks {
        if mark.is_sign(Symbol::Open) {
            depth = depth.saturating_add(1);
        } else if mark.is_sign(Symbol::Close) {
            if depth == 0 {
                break;
            }
            depth = depth.saturating_sub(1);
        } else if depth == 0 && mark.is_word(end) {
            break;
        } else if depth == 0 && mark.is_sign(Symbol::Comma) {
            count = count.saturating_add(1);
        }
    }
    count
}

/// A row with another number of values than its table has columns, or a sub-select with another number of items than
/// its tuple has terms.
pub(crate) fn arity(scene: &Scene<'_>) -> Result<Wording, AllocError> {
    if scene.is_at(-1, "VALUES") {
        return row_arity(scene);
    }
    tuple_arity(scene)
}

fn row_arity(scene: &Scene<'_>) -> Result<Wording, AllocError> {
    let alloc = scene.alloc;
    let name = match scene.token(-2) {
        Some(mark) => mark.text,
        None => "",
    };
    let columns = scene.columns_of(&[name])?;
    let hint = Some(columns_hint(scene, columns.as_slice())?);
    let inside = marks_behind(scene.coming(), 1);
    let wanted = Quantity(columns.len(), "column");
    let count = things(inside, Keyword::Values);
    let values = Quantity(count, "value");
    let verb = if count == 1 { "stands" } else { "stand" };
    let sentence = format!(in alloc; "{name} has {wanted}, and here {verb} {values}")?;
    Ok(Wording { sentence, hint })
}

/// Which columns a table has.
fn columns_hint(scene: &Scene<'_>, columns: &[&str]) -> Result<String, AllocError> {
    let alloc = scene.alloc;
    let list = listed(alloc, columns, ", ", " and ")?;
    let be = if columns.len() == 1 {
        "column is"
    } else {
        "columns are"
    };
    format!(in alloc; "the {be} {list}")
}

fn tuple_arity(scene: &Scene<'_>) -> Result<Wording, AllocError> {
    let alloc = scene.alloc;
    let coming = scene.coming();
    let inside = if scene.is_at(0, "(") {
        coming.get(1..)
    } else {
        coming.get(..)
    };
    let terms = Quantity(things(inside.unwrap_or(coming), Keyword::In), "term");
    let items = Quantity(items_behind(scene, coming)?, "item");
    let sentence = format!(in alloc; "this tuple has {terms}, and its sub-select has {items}")?;
    Ok(Wording::plain(sentence))
}

/// The tokens behind the first SELECT of some.
fn behind_select<'a, 'b>(marks: &'b [Mark<'a>]) -> &'b [Mark<'a>] {
    for (index, mark) in marks.iter().enumerate() {
        if mark.is_word(Keyword::Select) {
            return marks_behind(marks, index.saturating_add(1));
        }
    }
    marks_behind(marks, marks.len())
}

/// How many items the first sub-select of these tokens has; `*` stands for all columns of its sources.
fn items_behind(scene: &Scene<'_>, marks: &[Mark<'_>]) -> Result<usize, AllocError> {
    let list = behind_select(marks);
    if !is_one(list.first(), "*") {
        return Ok(things(list, Keyword::From));
    }
    let mut count = 0usize;
    for source in &sources_of(scene.alloc, list)? {
        if let Some(table) = scene.table(source.table) {
            count = count.saturating_add(table.columns.len());
        }
    }
    Ok(count)
}
