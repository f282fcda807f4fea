//! Transactions that are told, with their answers.
ghost use Rattle.std.specs.Prelude.{◌≡◌, ◌↔◌, ◌<◌, IsTrue, IsSome, None, IfOk, IfSome, length};
ghost use Rattle.std.specs.Option.{option_copied};
ghost use Rattle.ent_tree.specs.declared.limits.TheConstants.{MOST_STATEMENTS};
ghost use Rattle.ent_history.specs.Told.{has_committed};
ghost use Rattle.ent_history.specs.Draft.{answer_due, on_last, unanswered};
ghost use Rattle.ent_history.specs.Answers.{answers_so_far, rows_of, with_answer, with_answer_row, with_row};
ghost use Rattle.ent_history.specs.Parts.{Ascends};
ghost use Rattle.ent_report_reader.specs.Due.{AnswerTakes};

use crate::lists::{at, is_behind, last, take_last};
use ent_history::Told;
use ent_semantics::{Answer, Fate};
use ent_tree::{Script, Statement};
use ent_value::{Row, Sequence};
use std::alloc::{AllocError, Global};

fn has_committed(fate: &Fate) -> bool
    ensures { result ≡ has_committed fate.now }
{
    matches!(fate, Fate::Committed { .. })
}

/// Of a transaction that committed, the first statement that has no answer yet.
fn unanswered<'a>(script: &'a Script, told: &Told) -> Option<&'a Statement>
    ensures due { option_copied result ≡ unanswered script.now told.now }
    ensures limit { IfSome result (λ _. length told.now.answers < MOST_STATEMENTS) }
{
    if !has_committed(&told.fate) {
        return None;
    }
    if told.answers.len() >= script.statements.len() {
        return None;
    }
    script.statements.get(told.answers.len())
}

/// The statement whose answer is due: that of the last transaction that is told.
pub(crate) fn answer_due<'a>(scripts: &'a [Script], transactions: &[Told]) -> Option<&'a Statement>
    ensures due { option_copied result ≡ answer_due scripts.now transactions.now }
    ensures limit { IfSome result (λ _. answers_so_far transactions.now < MOST_STATEMENTS) }
{
    let Some(told) = last(transactions) else {
        return None;
    };
    let Some(script) = at(scripts, transactions.len() - 1) else {
        return None;
    };
    unanswered(script, told)
}

/// Whether the transaction of each script is told, with its answers.
pub(crate) fn are_told(scripts: &[Script], transactions: &[Told]) -> bool
    ensures { IsTrue result ↔ ((length transactions.now ≡ length scripts.now)
        × (answer_due scripts.now transactions.now ≡ None)) }
{
    transactions.len() == scripts.len() && answer_due(scripts, transactions).is_none()
}

/// How many answers the last transaction has.
pub(crate) fn answers_so_far(transactions: &[Told]) -> usize
    ensures { result ≡ answers_so_far transactions.now }
{
    match last(transactions) {
        Some(told) => told.answers.len(),
        None => 0,
    }
}

/// Puts an answer behind those of the last transaction.
pub(crate) fn put_answer(
    alloc: Global,
    transactions: &mut Sequence<Told>,
    answer: Answer,
) -> Result<(), AllocError>
    ensures { IfOk result (λ _. transactions.new ≡ on_last (with_answer answer) transactions.old) }
{
    if let Some(mut told) = take_last(alloc, transactions) {
        told.answers.push(answer)?;
        transactions.push(told)?;
    }
    Ok(())
}

/// Puts a row behind those of an answer of rows.
fn put_row(answer: &mut Answer, row: Row) -> Result<(), AllocError>
    ensures { IfOk result (λ _. answer.new ≡ with_row row answer.old) }
{
    if let Answer::Rows(rows) = answer {
        rows.push(row)?;
    }
    Ok(())
}

/// Puts a row behind those of the last answer.
fn put_last_row(alloc: Global, answers: &mut Sequence<Answer>, row: Row) -> Result<(), AllocError>
    ensures { IfOk result (λ _. answers.new ≡ on_last (with_row row) answers.old) }
{
    if let Some(mut answer) = take_last(alloc, answers) {
        put_row(&mut answer, row)?;
        answers.push(answer)?;
    }
    Ok(())
}

/// Puts a row behind those of the last answer of the last transaction.
pub(crate) fn put_answer_row(
    alloc: Global,
    transactions: &mut Sequence<Told>,
    row: Row,
) -> Result<(), AllocError>
    ensures { IfOk result (λ _. transactions.new ≡ on_last (with_answer_row row) transactions.old) }
{
    if let Some(mut told) = take_last(alloc, transactions) {
        put_last_row(alloc, &mut told.answers, row)?;
        transactions.push(told)?;
    }
    Ok(())
}

/// Whether a row comes behind those of an answer.
fn rows_take(answer: &Answer, row: &Row) -> bool
    ensures { IsTrue result ↔ Ascends (rows_of answer.now) row.now }
{
    match answer {
        Answer::Rows(rows) => is_behind(rows.as_slice(), row),
        Answer::Count(_) => true,
        Answer::Value(_) => true,
        Answer::Heads(_) => true,
    }
}

/// Whether there is a last answer, and this row comes behind its rows.
pub(crate) fn answer_takes(transactions: &[Told], row: &Row) -> bool
    ensures { IsTrue result ↔ AnswerTakes transactions.now row.now }
{
    let Some(told) = last(transactions) else {
        return false;
    };
    let Some(answer) = last(told.answers.as_slice()) else {
        return false;
    };
    rows_take(answer, row)
}
