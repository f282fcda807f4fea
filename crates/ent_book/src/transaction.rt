//! The text of transactions: their fates, and the answers of those that committed.
ghost use Rattle.std.specs.Prelude.{◌≡◌, ◌++◌, OnErr, OnOk};
ghost use Rattle.ent_book.specs.Report.{after_text, answers_text, fate_answers, fate_text};
ghost use Rattle.ent_book.specs.Report.{transaction_text, transactions_text};

use crate::answer::put_answers;
use crate::piece::append_number;
use ent_semantics::{Entry, Fate, Fated, element};
use std::alloc::{AllocError, Global};

/// How many runs a transaction took part in, as the report has it behind another word: ` after ` and the number. Where
/// memory runs out nothing is put.
pub fn append_after(alloc: Global, out: &mut Vec<u8>, runs: u64) -> Result<(), AllocError>
    ensures ok { OnOk result (out.new.items ≡ out.old.items ++ after_text runs) }
    ensures err { OnErr result (out.new.items ≡ out.old.items) }
{
    let mut piece = Vec::new(alloc);
    put_after(alloc, &mut piece, runs)?;
    out.extend_from_slice(piece.as_slice())
}

/// The same; where memory runs out some of it may have been put.
fn put_after(alloc: Global, out: &mut Vec<u8>, runs: u64) -> Result<(), AllocError>
    ensures { OnOk result (out.new.items ≡ out.old.items ++ after_text runs) }
{
    out.extend_from_slice(b" after ")?;
    append_number(alloc, out, runs)
}

/// A fate as the report has it: `committed` and the number of the commit, `gave up`, `rolled back`, or `failed` and the
/// failure, `F1` or `F2`; and behind it after how many runs. Where memory runs out nothing is put.
pub fn append_fate(alloc: Global, out: &mut Vec<u8>, fate: Fate) -> Result<(), AllocError>
    ensures ok { OnOk result (out.new.items ≡ out.old.items ++ fate_text fate) }
    ensures err { OnErr result (out.new.items ≡ out.old.items) }
{
    let mut piece = Vec::new(alloc);
    put_fate(alloc, &mut piece, fate)?;
    out.extend_from_slice(piece.as_slice())
}

/// The same; where memory runs out some of it may have been put.
fn put_fate(alloc: Global, out: &mut Vec<u8>, fate: Fate) -> Result<(), AllocError>
    ensures { OnOk result (out.new.items ≡ out.old.items ++ fate_text fate) }
{
    match fate {
        Fate::Committed { number, runs } => {
            out.extend_from_slice(b"committed ")?;
            append_number(alloc, out, number)?;
            put_after(alloc, out, runs)
        }
        Fate::GaveUp { runs } => {
            out.extend_from_slice(b"gave up")?;
            put_after(alloc, out, runs)
        }
        Fate::RolledBack { runs } => {
            out.extend_from_slice(b"rolled back")?;
            put_after(alloc, out, runs)
        }
        Fate::Failed { failure, runs } => {
            out.extend_from_slice(b"failed ")?;
            out.extend_from_slice(failure.name().as_bytes())?;
            put_after(alloc, out, runs)
        }
    }
}

/// The answers of a transaction of that fate that committed: those of the entry of its number.
fn append_fate_answers(
    alloc: Global,
    out: &mut Vec<u8>,
    journal: &[Entry],
    fate: Fate,
) -> Result<(), AllocError>
    ensures { OnOk result (out.new.items ≡ out.old.items ++ answers_text 1 (fate_answers journal.now fate)) }
{
    match fate {
        Fate::Committed { number, .. } => match element(journal, number) {
            Some(entry) => put_answers(alloc, out, entry.answers.as_slice()),
            None => Ok(()),
        },
        Fate::GaveUp { .. } | Fate::RolledBack { .. } | Fate::Failed { .. } => Ok(()),
    }
}

fn append_transaction(
    alloc: Global,
    out: &mut Vec<u8>,
    journal: &[Entry],
    fated: Fated,
) -> Result<(), AllocError>
    ensures { OnOk result (out.new.items ≡ out.old.items ++ transaction_text journal.now fated) }
{
    out.extend_from_slice(b"tx ")?;
    append_number(alloc, out, fated.tx)?;
    out.push(b' ')?;
    put_fate(alloc, out, fated.fate)?;
    out.push(b'\n')?;
    append_fate_answers(alloc, out, journal, fated.fate)
}

/// Transactions, in the order of the fates.
pub(crate) fn append_transactions(
    alloc: Global,
    out: &mut Vec<u8>,
    journal: &[Entry],
    fates: &[Fated],
) -> Result<(), AllocError>
    ensures { OnOk result (out.new.items ≡ out.old.items ++ transactions_text journal.now fates.now) }
{
    for fated in fates {
        append_transaction(alloc, out, journal, *fated)?;
    }
    Ok(())
}
