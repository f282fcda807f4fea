//! What the rule of the journal wants, and what stands there.
use crate::page::Page;
use ent_history::{History, Told};
use ent_semantics::{Fate, element};
use ent_tree::End;
use std::alloc::AllocError;

/// The number that a transaction committed with.
fn number_of(told: &Told) -> Option<u64> {
    match told.fate {
        Fate::Committed {
            number,
            runs: _runs,
        } => Some(number),
        _ => None,
    }
}

/// How many transactions have committed.
fn commit_count(history: &History) -> u64 {
    let mut count: u64 = 0;
    for told in history.transactions.as_slice() {
        if number_of(told).is_some() {
            count = count.saturating_add(1);
        }
    }
    count
}

/// The first transaction that committed with a number.
fn first_with(history: &History, number: u64) -> Option<u64> {
    for (index, told) in history.transactions.as_slice().iter().enumerate() {
        if number_of(told) == Some(number) {
            return Some(index as u64 + 1);
        }
    }
    None
}

/// Whether a transaction's script ends with ROLLBACK.
fn ends_with_rollback(history: &History, tx: u64) -> bool {
    match element(history.scripts.as_slice(), tx) {
        Some(script) => matches!(script.end, End::Rollback),
        None => false,
    }
}

/// The number that the transaction of a number committed with; 0 where it didn't.
fn number_at(history: &History, tx: u64) -> u64 {
    match element(history.transactions.as_slice(), tx) {
        Some(told) => number_of(told).unwrap_or(0),
        None => 0,
    }
}

/// Tells of the first transaction that breaks the rule of the journal.
pub(crate) fn tell_journal(page: &mut Page, history: &History, tx: u64) -> Result<(), AllocError> {
    let count = commit_count(history);
    page.words("expected: commit numbers 1 to ")?;
    page.number(count)?;
    page.words(", each once, and none of a script that ends with ROLLBACK\nfound: tx ")?;
    page.number(tx)?;
    page.words(" committed ")?;
    let number = number_at(history, tx);
    page.number(number)?;
    if number == 0 || number > count {
        return page.words(", which is none of them\n");
    }
    match first_with(history, number) {
        Some(first) if first < tx => {
            page.words(", as tx ")?;
            page.number(first)?;
            page.words(" did\n")
        }
        _ if ends_with_rollback(history, tx) => {
            page.words(", and its script ends with ROLLBACK\n")
        }
        _ => page.words("\n"),
    }
}
