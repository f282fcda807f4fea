//! Whether lines begin a script of a report.
ghost use Rattle.std.specs.Prelude.{◌≡◌, ◌↔◌, ◌++◌, ℕ, IfOk, IsTrue, codes, string_bytes};
ghost use Rattle.ent_book.specs.Report.{line};
ghost use Rattle.ent_form.specs.Catalogue.{schemas_of};
ghost use Rattle.ent_history.specs.declared.history.History.{History};
ghost use Rattle.ent_history.specs.Begins.{HasWholeLines, BeginsScript};
ghost use Rattle.ent_history.specs.Filling.{filling};

use crate::reader::read_script;
use ent_book::line_count;
use ent_form::Catalogue;
use std::alloc::{AllocError, Global};

/// The fewest lines of a script: BEGIN and the end.
const FEWEST_LINES: u64 = 2;

/// The most lines of a script, which has 64 statements at most.
const MOST_LINES: u64 = 66;

fn has_whole_lines(text: &[u8]) -> bool
    ensures { IsTrue result ↔ HasWholeLines text.now }
{
    match text.last() {
        None => true,
        Some(byte) => *byte == b'\n',
    }
}

/// The lines, so many more, each a statement that has no fault wherever it stands, and COMMIT.
fn filled(alloc: Global, lines: &str, more: u64) -> Result<String, AllocError>
    ensures { IfOk result (λ text. string_bytes text ≡ lines.now ++ (filling more ++ line (codes "COMMIT;"))) }
{
    let mut text = String::from_str(alloc, lines)?;
    let mut left = more;
    while left > 0 {
        text.push_str("SET @x = 0;\n")?;
        left -= 1;
    }
    text.push_str("COMMIT;\n")?;
    Ok(text)
}

/// Whether lines begin the text of a script of `count` lines that the report can show, and aren't all of it: `lines` is
/// what stands below a `script` line of a report that ends there, each line with its LF. A statement asks nothing of
/// those behind it, so what is missing can always be `SET @x = 0;`, as often as need be, and `COMMIT;`.
pub fn begins_script(
    alloc: Global,
    catalogue: &Catalogue,
    lines: &str,
    count: u64,
) -> Result<bool, AllocError>
    ensures { (told : History) → catalogue.now.tables ≡ schemas_of told.opening.tables
        → IfOk result (λ begins. IsTrue begins ↔ BeginsScript told lines.now count) }
{
    if count < FEWEST_LINES || count > MOST_LINES {
        return Ok(false);
    }
    if lines.is_empty() {
        return Ok(true);
    }
    let read = line_count(lines.as_bytes());
    if !has_whole_lines(lines.as_bytes()) || read >= count {
        return Ok(false);
    }
    let whole = filled(alloc, lines, count - read - 1)?;
    Ok(read_script(alloc, catalogue, whole.as_str())?.is_some())
}
