//! The pieces of a text, lines and scripts, one after the other.
ghost use Rattle.std.specs.Prelude.{◌↔◌, ◌++◌, IfOk, IsTrue, true, ◌≡◌};
ghost use Rattle.std.specs.List.{list_all};
ghost use Rattle.std.specs.Option.{option_copied};
ghost use Rattle.ent_text.specs.Spelling.{is_in_line};
ghost use Rattle.ent_book.specs.Report.{line};
ghost use Rattle.ent_history.specs.Scripts.{ScriptBreaksOff};
ghost use Rattle.ent_report_reader.specs.Steps.{Steps, StepsScript};

use crate::Draft;
use crate::lines::{first_line, front_lines};
use ent_book::line_count;
use ent_history::scripts_break_off_in_their_lines;
use ent_value::Refusal;
use std::alloc::{AllocError, Global};

/// Takes in a script, whose `script` line is the first line, without its LF, where it can stand: what stands behind it.
fn take_script<'a>(
    draft: &mut Draft,
    alloc: Global,
    first: &str,
    behind: &'a str,
) -> Result<Option<&'a str>, AllocError>
    requires { list_all is_in_line first.now ≡ true }
    ensures { IfOk result (λ rest.
        StepsScript draft.old draft.new (line first.now ++ behind.now) (option_copied rest)) }
{
    let count = match draft.script_line(first.as_bytes()) {
        Ok(count) => count,
        Err(Refusal::Memory) => return Err(AllocError),
        Err(Refusal::Fault(_)) => return Ok(None),
    };
    let (lines, rest) = front_lines(behind, count);
    if line_count(lines.as_bytes()) != count {
        return Ok(None);
    }
    match draft.script(alloc, lines) {
        Ok(()) => Ok(Some(rest)),
        Err(Refusal::Memory) => Err(AllocError),
        Err(Refusal::Fault(_)) => Ok(None),
    }
}

/// Takes in the first piece of a text, a line or a script with its lines, where it can stand: what stands behind it.
pub(crate) fn take_piece<'a>(
    draft: &mut Draft,
    alloc: Global,
    text: &'a str,
) -> Result<Option<&'a str>, AllocError>
    ensures { IfOk result (λ rest. Steps draft.old draft.new text.now (option_copied rest)) }
{
    let Some((first, behind)) = first_line(text) else {
        return Ok(None);
    };
    draft.next_table_is_word();
    if draft.line(alloc, first.as_bytes())? {
        return Ok(Some(behind));
    }
    take_script(draft, alloc, first, behind)
}

/// Whether the text breaks off inside a script.
pub(crate) fn breaks_off(draft: &Draft, alloc: Global, text: &str) -> Result<bool, AllocError>
    ensures { IfOk result (λ breaks. IsTrue breaks ↔ ScriptBreaksOff draft.now text.now) }
{
    scripts_break_off_in_their_lines();
    let Some((first, behind)) = first_line(text) else {
        return Ok(false);
    };
    let count = match draft.script_line(first.as_bytes()) {
        Ok(count) => count,
        Err(Refusal::Memory) => return Err(AllocError),
        Err(Refusal::Fault(_)) => return Ok(false),
    };
    let (lines, _) = front_lines(behind, behind.len() as u64);
    draft.begins_script(alloc, lines, count)
}
