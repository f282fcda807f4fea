//! Groups of transactions, lists of them, and cycles: `== groups`, `== members`, `== cycles`.
use anyhow::{Context, Result, bail};
use ent_group::{Groups, MOST_MEMBERS, Members, Tx, cycle, few_pairs_name_few};
use ent_scenario_files::replies::{Out, put, put_number, put_shown, yes_or_no};
use ent_scenario_files::words::{index, number};
use std::alloc::Global;

pub(crate) fn reply_to_groups(groups: &mut Groups, call: &[&str], out: &mut Out) -> Result<()> {
    match call {
        ["add", tx] => put(out, yes_or_no(add(groups, number(tx)?))),
        ["merge", left, right] => {
            let (left, right) = (number(left)?, number(right)?);
            put(out, yes_or_no(merge(groups, left, right)))
        }
        ["remove", tx] => {
            groups.remove_group(number(tx)?);
            put_number(out, groups.len())
        }
        _ => return reply_of_groups(groups, call, out),
    }
    Ok(())
}

/// The reply to a call that changes nothing.
fn reply_of_groups(groups: &Groups, call: &[&str], out: &mut Out) -> Result<()> {
    match call {
        ["group", tx] => put_members(out, &groups.members(number(tx)?)),
        ["label", tx] => put_transaction(out, groups.group_of(number(tx)?)),
        ["contains", tx] => put(out, yes_or_no(groups.contains(number(tx)?))),
        ["all"] => put_all(groups, out),
        ["is_empty"] => put(out, yes_or_no(groups.is_empty())),
        _ => bail!("groups know no such call"),
    }
    Ok(())
}

fn put_all(groups: &Groups, out: &mut Out) {
    let mut all = Members::new();
    for membership in groups.as_slice() {
        push(&mut all, membership.member);
    }
    put_members(out, &all);
}

pub(crate) fn put_transaction(out: &mut Out, tx: Option<Tx>) {
    match tx {
        Some(tx) => put_shown(out, &tx),
        None => put(out, "nobody"),
    }
}

/// Adds a transaction where it is no member and there is room.
fn add(groups: &mut Groups, tx: Tx) -> bool {
    let can = groups.len() < MOST_MEMBERS && !groups.contains(tx);
    if can {
        groups.add(tx);
    }
    can
}

fn merge(groups: &mut Groups, left: Tx, right: Tx) -> bool {
    let can = groups.contains(left) && groups.contains(right);
    if can {
        groups.merge(left, right);
    }
    can
}

pub(crate) fn push(members: &mut Members, tx: Tx) -> bool {
    let can = !members.is_full();
    if can {
        members.push(tx);
    }
    can
}

/// The transactions of these numbers.
pub(crate) fn read_members(words: &[&str]) -> Result<Members> {
    let mut members = Members::new();
    for word in words {
        push(&mut members, number(word)?);
    }
    Ok(members)
}

/// Numbers, a blank between two.
pub(crate) fn put_numbers(out: &mut Out, numbers: &[u64]) {
    let mut before = "";
    for number in numbers {
        put(out, before);
        put_shown(out, number);
        before = " ";
    }
}

pub(crate) fn put_members(out: &mut Out, members: &Members) {
    if members.is_empty() {
        return put(out, "nobody");
    }
    put_numbers(out, members.as_slice());
}

pub(crate) fn reply_to_members(members: &mut Members, call: &[&str], out: &mut Out) -> Result<()> {
    match call {
        ["of", tx] => {
            *members = Members::of(number(tx)?);
            put_members(out, members)
        }
        ["push", tx] => put(out, yes_or_no(push(members, number(tx)?))),
        ["push_up_to", most] => {
            push_up_to(members, number(most)?);
            put_number(out, members.len())
        }
        _ => return reply_of_members(members, call, out),
    }
    Ok(())
}

fn push_up_to(members: &mut Members, most: Tx) {
    for tx in 1..=most {
        if !push(members, tx) {
            break;
        }
    }
}

/// The reply to a call that changes nothing.
fn reply_of_members(members: &Members, call: &[&str], out: &mut Out) -> Result<()> {
    match call {
        ["len"] => put_number(out, members.len()),
        ["walk"] => put_number(out, members.iter().count()),
        ["is_empty"] => put(out, yes_or_no(members.is_empty())),
        ["is_full"] => put(out, yes_or_no(members.is_full())),
        ["get", at] => put_transaction(out, members.get(index(at)?)),
        ["contains", tx] => put(out, yes_or_no(members.contains(number(tx)?))),
        ["is_its_copy"] => put(out, yes_or_no(members.copy() == *members)),
        ["is_list_of", tx] => put(out, yes_or_no(Members::of(number(tx)?) == *members)),
        _ => bail!("lists of members know no such call"),
    }
    Ok(())
}

/// The cycle of pairs, as `1>2 2>1`.
pub(crate) fn reply_to_cycles(alloc: Global, line: &str, out: &mut Out) -> Result<()> {
    let mut pairs = Vec::new(alloc);
    for word in line.split_whitespace() {
        let (waiter, awaited) = word.split_once('>').context("a pair is written 1>2")?;
        pairs.push((number(waiter)?, number(awaited)?))?;
    }
    put_cycle(out, pairs.as_slice())
}

/// Shows the cycle of at most 32 pairs, which name at most 64 transactions.
fn put_cycle(out: &mut Out, pairs: &[(Tx, Tx)]) -> Result<()> {
    if pairs.len() > 32 {
        bail!("these pairs are too many");
    }
    few_pairs_name_few();
    match cycle(pairs) {
        Some(members) => put_members(out, &members),
        None => put(out, "no cycle"),
    }
    Ok(())
}
