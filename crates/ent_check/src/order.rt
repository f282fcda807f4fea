//! The transactions that have committed, in the order of their commits.
ghost use Rattle.std.specs.Prelude.{◌≡◌, ◌++◌, ◌<◌, ℕ, [], Some, None, IfOk, OnOk, length, min, if◌then◌else◌};
ghost use Rattle.std.specs.BTreeMap.{get};
ghost use Rattle.std.specs.List.{AllByRecursion, cons_option};
ghost use Rattle.std.specs.Ordering.{nat_cmp};
ghost use Rattle.ent_check.specs.Order.{AreBelow, AreNumbered, accounts_at};
ghost use Rattle.ent_history.specs.Account.{accounts_from, commit_number, in_commit_order, is_number};
ghost use Rattle.ent_history.specs.Journal.{journal_findings};
ghost use Rattle.ent_history.specs.Verdict.{first_of};

use crate::journal::{commit_count, commit_number};
use ent_history::Told;
use ent_tree::Script;
use std::alloc::{AllocError, Global};
use std::collections::BTreeMap;

/// Under the numbers of commits the indices of their transactions.
type Indices = BTreeMap<u64, usize>;

/// Enters the index of a transaction under the number of its commit, if it has committed.
fn enter(indices: &mut Indices, told: &Told, index: usize) -> Result<(), AllocError>
    ensures { OnOk result ((number : ℕ) → get nat_cmp indices.new number
        ≡ (if is_number number (commit_number told.now.fate) then Some index else get nat_cmp indices.old number)) }
{
    if let Some(number) = commit_number(told) {
        indices.insert(number, index)?;
    }
    Ok(())
}

/// The indices of the transactions that have committed, by the numbers of their commits.
fn by_number(
    alloc: Global,
    scripts: &[Script],
    transactions: &[Told],
) -> Result<Indices, AllocError>
    requires { first_of (journal_findings (accounts_from 1 scripts.now transactions.now)) ≡ None }
    ensures numbered { IfOk result (λ indices. AreNumbered (accounts_from 1 scripts.now transactions.now) indices) }
    ensures within { IfOk result (λ indices. AreBelow (min (length scripts.now) (length transactions.now)) indices) }
{
    let all = scripts.len().min(transactions.len());
    let mut indices = BTreeMap::new(alloc);
    for index in 0..all {
        enter(&mut indices, &transactions[index], index)?;
    }
    Ok(indices)
}

/// Adds the index of the commit of a number, if there is one.
fn push_index(order: &mut Vec<usize>, indices: &Indices, number: u64) -> Result<(), AllocError>
    ensures { OnOk result (order.new.items
        ≡ order.old.items ++ cons_option (get nat_cmp indices.now number) []) }
{
    if let Some(index) = indices.get(&number).copied() {
        order.push(index)?;
    }
    Ok(())
}

/// The indices, from 0, of the transactions that have committed, in the order of their commits, where nothing breaks
/// the rule of the journal.
pub fn commit_order(
    alloc: Global,
    scripts: &[Script],
    transactions: &[Told],
) -> Result<Vec<usize>, AllocError>
    requires { first_of (journal_findings (accounts_from 1 scripts.now transactions.now)) ≡ None }
    ensures in_order { let all = accounts_from 1 scripts.now transactions.now in
        IfOk result (λ order. accounts_at all order.items ≡ in_commit_order all) }
    ensures within { IfOk result (λ order.
        AllByRecursion (λ index. index < min (length scripts.now) (length transactions.now)) order.items) }
{
    let count = commit_count(scripts, transactions);
    let indices = by_number(alloc, scripts, transactions)?;
    let mut order = Vec::new(alloc);
    for before in 0..count {
        push_index(&mut order, &indices, before + 1)?;
    }
    Ok(order)
}
