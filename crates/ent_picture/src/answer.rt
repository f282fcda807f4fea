//! Answers of statements, each in one line.
ghost use Rattle.std.specs.Prelude.{◌≡◌, IfOk};

use crate::words::{Read, divided, misfit, whole_number};
use ent_text::{behind, row, value};
use std::alloc::Global;

/// The text of an answer, where it is one: a count, a value that was set, or rows.
pub(crate) fn answer(alloc: Global, text: &str) -> Read<Vec<u8>>
    ensures ok { IfOk result (λ answer. text.now ≡ answer.items) }
{
    match divided(text) {
        Some(("count", count)) => {
            whole_number(count)?;
        }
        Some(("set", set)) => one_value(alloc, set.as_bytes())?,
        Some(("rows", rows)) => counted_rows(alloc, rows)?,
        _ => return misfit(),
    }
    Ok(Vec::from_slice(alloc, text.as_bytes())?)
}

fn one_value(alloc: Global, text: &[u8]) -> Read<()> {
    let (_, rest) = value(alloc, text)?;
    if rest.is_empty() { Ok(()) } else { misfit() }
}

/// A count, and as many rows, each behind a blank.
fn counted_rows(alloc: Global, text: &str) -> Read<()> {
    let Some((count, rows)) = divided(text) else {
        return if text == "0" { Ok(()) } else { misfit() };
    };
    let mut rest = rows.as_bytes();
    let count = whole_number(count)?;
    for at in 0..count {
        if at > 0 {
            rest = behind(b" ", rest)?;
        }
        let (_, left) = row(alloc, rest)?;
        rest = left;
    }
    if rest.is_empty() && count > 0 {
        Ok(())
    } else {
        misfit()
    }
}
