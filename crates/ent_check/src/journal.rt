//! The rule of the journal.
ghost use Rattle.std.specs.Prelude.{◌≡◌, ◌++◌, [], IfOk, OnOk};
ghost use Rattle.std.specs.List.{cons_option};
ghost use Rattle.ent_history.specs.Account.{accounts_from, commit_count, commit_number};
ghost use Rattle.ent_history.specs.Journal.{commits, is_next, journal_findings, number_finding};
ghost use Rattle.ent_history.specs.Verdict.{first_of};

use ent_history::{Finding, Rule, Thing, Told};
use ent_semantics::Fate;
use ent_tree::{End, Script};
use std::alloc::{AllocError, Global};

/// The number that a transaction committed with.
pub(crate) fn commit_number(told: &Told) -> Option<u64>
    ensures { result ≡ commit_number told.now.fate }
{
    match told.fate {
        Fate::Committed {
            number,
            runs: _runs,
        } => Some(number),
        _ => None,
    }
}

/// How many transactions have committed.
pub(crate) fn commit_count(scripts: &[Script], transactions: &[Told]) -> u64
    ensures { result ≡ commit_count (accounts_from 1 scripts.now transactions.now) }
{
    let all = scripts.len().min(transactions.len());
    let mut count: u64 = 0;
    for index in 0..all {
        let committed = commit_number(&transactions[index]).is_some();
        if committed {
            count += 1;
        }
    }
    count
}

/// Whether a script ends with COMMIT.
fn commits(script: &Script) -> bool
    ensures { result ≡ commits script.now.end }
{
    matches!(script.end, End::Commit)
}

/// Whether this is a number of a commit among so many, and none of those above.
fn is_next(count: u64, above: &[u64], number: u64) -> bool
    ensures { result ≡ is_next count above.now number }
{
    0 < number && number <= count && !above.contains(&number)
}

/// What is found of a transaction of this number, behind those whose commits have the numbers above.
fn number_finding(
    count: u64,
    above: &[u64],
    tx: u64,
    script: &Script,
    told: &Told,
) -> Option<Finding>
    ensures { result ≡ first_of (number_finding count above.now
        (record { tx = tx; script = script.now; fate = told.now.fate; answers = told.now.answers })
        (commit_number told.now.fate)) }
{
    let number = commit_number(told)?;
    if is_next(count, above, number) && commits(script) {
        return None;
    }
    Some(Finding {
        rule: Rule::Journal,
        thing: Thing::Transaction(tx),
    })
}

/// Adds the number that a transaction committed with, if it did.
fn push_number(above: &mut Vec<u64>, told: &Told) -> Result<(), AllocError>
    ensures { OnOk result (above.new.items ≡ above.old.items ++ cons_option (commit_number told.now.fate) []) }
{
    if let Some(number) = commit_number(told) {
        above.push(number)?;
    }
    Ok(())
}

/// The first transaction that breaks the rule of the journal.
pub fn journal_finding(
    alloc: Global,
    scripts: &[Script],
    transactions: &[Told],
) -> Result<Option<Finding>, AllocError>
    ensures { IfOk result (λ finding.
        finding ≡ first_of (journal_findings (accounts_from 1 scripts.now transactions.now))) }
{
    let count = commit_count(scripts, transactions);
    let all = scripts.len().min(transactions.len());
    let mut above = Vec::new(alloc);
    for index in 0..all {
        let told = &transactions[index];
        let finding = number_finding(
            count,
            above.as_slice(),
            index as u64 + 1,
            &scripts[index],
            told,
        );
        if finding.is_some() {
            return Ok(finding);
        }
        push_number(&mut above, told)?;
    }
    Ok(None)
}
