//! Answers of statements, each in one line.
use crate::text::WrittenText;
use ent_semantics::{Answer, Fact};
use ent_value::Row;
use std::alloc::Global;

/// An answer as a report has it, in one line and without its place.
pub(crate) fn put_answer(alloc: Global, text: &mut WrittenText, answer: &Answer) {
    match answer {
        Answer::Count(count) => text.put_number("count", *count),
        Answer::Value(value) => {
            text.put("set ");
            text.put_value(alloc, value);
        }
        Answer::Rows(rows) => {
            text.put_number("rows", rows.len() as u64);
            put_rows(alloc, text, rows.as_slice());
        }
        Answer::Heads(heads) => {
            text.put("answer");
            put_facts(alloc, text, heads.as_slice());
        }
    }
}

/// Rows, each behind a blank.
pub fn put_rows(alloc: Global, text: &mut WrittenText, rows: &[Row]) {
    for row in rows {
        text.put(" ");
        text.put_row(alloc, row);
    }
}

/// Rows of answer relations, each behind a blank.
fn put_facts(alloc: Global, text: &mut WrittenText, facts: &[Fact]) {
    for fact in facts {
        text.put(" ");
        text.put_name(&fact.relation);
        text.put_row(alloc, &fact.values);
    }
}

/// Answers, each behind a semicolon and a blank.
pub fn put_answers(alloc: Global, text: &mut WrittenText, answers: &[Answer]) {
    for answer in answers {
        text.put("; ");
        put_answer(alloc, text, answer);
    }
}
