//! The lines of answers, as they are read for a statement.
ghost use Rattle.std.specs.Prelude.{[]};
ghost use Rattle.ent_value.specs.declared.value.Value.{Value};
ghost use Rattle.ent_tree.specs.declared.script.Statement.{Statement};
ghost use Rattle.ent_semantics.specs.declared.answer.Answer.TheVariants.{Count, Heads, Rows, Value as Bound};
ghost use Rattle.ent_history.specs.Answers.{IsOfSort};
ghost use Rattle.ent_report_reader.specs.Reading.{IsAnswerLine, Reads};

use crate::reading::{heads_line, placed_line, set_line};
use ent_semantics::Answer;
use ent_text::LineFault;
use ent_tree::Statement;
use ent_value::{Refusal, Sequence};
use std::alloc::Global;

/// How many rows an INSERT put in, or a DELETE or an UPDATE concerned: the place, the answer, and no row behind it.
pub(crate) fn count_answer(text: &[u8]) -> Result<(u64, Answer, u64), Refusal<LineFault>>
    ensures { (statement : Statement) → IsOfSort statement (Count 0) → Reads (IsAnswerLine statement text.now) result }
{
    let (place, count) = placed_line(b" count ", text)?;
    Ok((place, Answer::Count(count), 0))
}

/// What a SET bound: the place, the answer, and no row behind it.
pub(crate) fn value_answer(
    alloc: Global,
    text: &[u8],
) -> Result<(u64, Answer, u64), Refusal<LineFault>>
    ensures { (statement : Statement) → ((value : Value) → IsOfSort statement (Bound value))
        → Reads (IsAnswerLine statement text.now) result }
{
    let (place, value) = set_line(alloc, text)?;
    Ok((place, Answer::Value(value), 0))
}

/// The rows of a SELECT: the place, the answer without them, and how many follow.
pub(crate) fn rows_answer(
    alloc: Global,
    text: &[u8],
) -> Result<(u64, Answer, u64), Refusal<LineFault>>
    ensures { (statement : Statement) → IsOfSort statement (Rows []) → Reads (IsAnswerLine statement text.now) result }
{
    let (place, count) = placed_line(b" rows ", text)?;
    Ok((place, Answer::Rows(Sequence::new(alloc)), count))
}

/// The heads of an entangled statement: the place, the answer, and no row behind it.
pub(crate) fn heads_answer(
    alloc: Global,
    text: &[u8],
) -> Result<(u64, Answer, u64), Refusal<LineFault>>
    ensures { (statement : Statement) → IsOfSort statement (Heads []) → Reads (IsAnswerLine statement text.now) result }
{
    let (place, heads) = heads_line(alloc, text)?;
    Ok((place, Answer::Heads(heads), 0))
}

/// An answer of this statement's sort: the place, the answer, which has no row yet, and how many rows follow.
pub(crate) fn answer_line(
    alloc: Global,
    statement: &Statement,
    text: &[u8],
) -> Result<(u64, Answer, u64), Refusal<LineFault>>
    ensures { Reads (IsAnswerLine statement.now text.now) result }
{
    match statement {
        Statement::Select(_) => rows_answer(alloc, text),
        Statement::Entangled(_) => heads_answer(alloc, text),
        Statement::Insert(_) => count_answer(text),
        Statement::Delete(_) => count_answer(text),
        Statement::Update(_) => count_answer(text),
        Statement::Set(_) => value_answer(alloc, text),
    }
}
