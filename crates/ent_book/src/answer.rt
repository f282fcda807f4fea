//! The text of answers.
ghost use Rattle.std.specs.Prelude.{◌≡◌, ◌++◌, OnErr, OnOk};
ghost use Rattle.ent_book.specs.Report.{answer_text, answers_text, fact_text, facts_text};

use crate::piece::{append_number, append_rows};
use ent_semantics::{Answer, Fact};
use ent_value::{print_row, print_value};
use std::alloc::{AllocError, Global};

/// A row of an answer relation, behind a space.
fn append_fact(alloc: Global, out: &mut Vec<u8>, fact: &Fact) -> Result<(), AllocError>
    ensures { OnOk result (out.new.items ≡ out.old.items ++ fact_text fact.now) }
{
    out.push(b' ')?;
    out.extend_from_slice(fact.relation.as_bytes())?;
    print_row(alloc, out, &fact.values)
}

fn append_facts(alloc: Global, out: &mut Vec<u8>, facts: &[Fact]) -> Result<(), AllocError>
    ensures { OnOk result (out.new.items ≡ out.old.items ++ facts_text facts.now) }
{
    for fact in facts {
        append_fact(alloc, out, fact)?;
    }
    Ok(())
}

fn append_answer(alloc: Global, out: &mut Vec<u8>, answer: &Answer) -> Result<(), AllocError>
    ensures { OnOk result (out.new.items ≡ out.old.items ++ answer_text answer.now) }
{
    match answer {
        Answer::Count(count) => {
            out.extend_from_slice(b"count ")?;
            append_number(alloc, out, *count)?;
            out.push(b'\n')?;
            Ok(())
        }
        Answer::Value(value) => {
            out.extend_from_slice(b"set ")?;
            print_value(alloc, out, value)?;
            out.push(b'\n')?;
            Ok(())
        }
        Answer::Rows(rows) => {
            out.extend_from_slice(b"rows ")?;
            append_number(alloc, out, rows.len() as u64)?;
            out.push(b'\n')?;
            append_rows(alloc, out, rows.as_slice())
        }
        Answer::Heads(facts) => {
            out.extend_from_slice(b"answer")?;
            append_facts(alloc, out, facts.as_slice())?;
            out.push(b'\n')?;
            Ok(())
        }
    }
}

/// Answers in order of their statements, each behind its place, from 1. Where memory runs out nothing is put.
pub fn append_answers(
    alloc: Global,
    out: &mut Vec<u8>,
    answers: &[Answer],
) -> Result<(), AllocError>
    ensures ok { OnOk result (out.new.items ≡ out.old.items ++ answers_text 1 answers.now) }
    ensures err { OnErr result (out.new.items ≡ out.old.items) }
{
    let mut piece = Vec::new(alloc);
    put_answers(alloc, &mut piece, answers)?;
    out.extend_from_slice(piece.as_slice())
}

/// The same; where memory runs out some of it may have been put.
pub(crate) fn put_answers(
    alloc: Global,
    out: &mut Vec<u8>,
    answers: &[Answer],
) -> Result<(), AllocError>
    ensures { OnOk result (out.new.items ≡ out.old.items ++ answers_text 1 answers.now) }
{
    let mut place = 1u64;
    for answer in answers {
        append_number(alloc, out, place)?;
        out.push(b' ')?;
        append_answer(alloc, out, answer)?;
        place += 1;
    }
    Ok(())
}
