//! Answers, facts and rows that are the same.
ghost use Rattle.std.specs.Prelude.{◌≡◌};
ghost use Rattle.std.specs.Cmp.Lexicographic.{pointwise};
ghost use Rattle.ent_history.specs.Alike.{same_row, same_rows, same_fact, same_answer};

use ent_semantics::{Answer, Fact};
use ent_value::Row;

/// Whether two lists of rows are the same.
pub(crate) fn same_rows(first: &[Row], second: &[Row]) -> bool
    ensures { result ≡ same_rows first.now second.now }
{
    first == second
}

/// Whether two facts are the same.
fn same_fact(first: &Fact, second: &Fact) -> bool
    ensures { result ≡ same_fact first.now second.now }
{
    first.relation == second.relation && first.values == second.values
}

/// Whether two lists of facts are the same.
fn same_facts(first: &[Fact], second: &[Fact]) -> bool
    ensures { result ≡ pointwise same_fact first.now second.now }
{
    if first.len() != second.len() {
        return false;
    }
    for index in 0..first.len() {
        let alike = same_fact(&first[index], &second[index]);
        if !alike {
            return false;
        }
    }
    true
}

/// Whether two answers are the same: of one sort, and with the same values, rows or heads in the same order.
pub fn same_answer(first: &Answer, second: &Answer) -> bool
    ensures { result ≡ same_answer first.now second.now }
{
    match (first, second) {
        (Answer::Count(mine), Answer::Count(theirs)) => mine == theirs,
        (Answer::Value(mine), Answer::Value(theirs)) => mine.cmp(theirs).is_eq(),
        (Answer::Rows(mine), Answer::Rows(theirs)) => same_rows(mine.as_slice(), theirs.as_slice()),
        (Answer::Heads(mine), Answer::Heads(theirs)) => {
            same_facts(mine.as_slice(), theirs.as_slice())
        }
        _ => false,
    }
}
