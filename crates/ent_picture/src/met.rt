//! Whose lanes are shown.
ghost use Rattle.std.specs.Prelude.{◌≡◌, ◌↔◌, ◌++◌, ℕ, IfOk, OnOk, Contains, filter};
ghost use Rattle.std.specs.List.{flat_map, list_any};
ghost use Rattle.std.specs.List.Sorted.{IsStrictlyIncreasing};
ghost use Rattle.ent_picture.specs.Members.{begun_with, companies_of, if_met, is_picked, members_of_commits};
ghost use Rattle.ent_picture.specs.Members.{members_of_start, picked_and_met, started};

use crate::joints::JointAnswer;
use crate::{Commit, Event, Exchange, Reply};
use ent_group::Tx;
use std::alloc::{AllocError, Global};

/// The members of the runs of a trace, each once, by number.
pub fn all_members(alloc: Global, trace: &[Exchange]) -> Result<Vec<Tx>, AllocError>
    ensures by_number { IfOk result (λ members. IsStrictlyIncreasing members.items) }
    ensures exact { IfOk result (λ members. (tx : ℕ) → Contains members.items tx ↔ Contains (started trace.now) tx) }
{
    Ok(each_once(started(alloc, trace)?))
}

/// What a trace names as members of a run that starts, in order, as often as it does.
fn started(alloc: Global, trace: &[Exchange]) -> Result<Vec<Tx>, AllocError>
    ensures { IfOk result (λ members. members.items ≡ started trace.now) }
{
    let mut members = Vec::new(alloc);
    for exchange in trace {
        members.extend_from_slice(members_of_start(&exchange.reply))?;
    }
    Ok(members)
}

/// The members of the run that a reply says to be on.
fn members_of_start(reply: &Reply) -> &[Tx]
    ensures { result.now ≡ members_of_start reply.now }
{
    match reply {
        Reply::Started(members) => members.as_slice(),
        _ => &[],
    }
}

/// The same numbers, each once, in order.
fn each_once(members: Vec<Tx>) -> Vec<Tx>
    ensures by_number { IsStrictlyIncreasing result.items }
    ensures exact { (tx : ℕ) → Contains result.items tx ↔ Contains members.items tx }
{
    let mut once = members;
    once.sort_unstable();
    once.dedup();
    once
}

/// Those that are picked, where they are members of a run, and whoever has met one of them: was answered or rolled
/// back with it, committed with it, blocked it or was blocked by it, or is one of those for whom a statement was held
/// back. Each is there once, by number.
pub fn members_met(
    alloc: Global,
    trace: &[Exchange],
    joints: &[JointAnswer],
    picked: &[Tx],
) -> Result<Vec<Tx>, AllocError>
    ensures by_number { IfOk result (λ members. IsStrictlyIncreasing members.items) }
    ensures exact { IfOk result (λ members. (tx : ℕ) → Contains members.items tx
        ↔ Contains (picked_and_met trace.now joints.now picked.now) tx) }
{
    let mut found = Vec::new(alloc);
    put_picked(&mut found, picked, started(alloc, trace)?.as_slice())?;
    put_partners(&mut found, picked, joints)?;
    put_companies(alloc, &mut found, picked, trace)?;
    Ok(each_once(found))
}

/// Puts those of these members that are picked.
fn put_picked(found: &mut Vec<Tx>, picked: &[Tx], members: &[Tx]) -> Result<(), AllocError>
    ensures { OnOk result (found.new.items ≡ found.old.items ++ filter (is_picked picked.now) members.now) }
{
    for tx in members {
        if is_picked(picked, *tx) {
            found.push(*tx)?;
        }
    }
    Ok(())
}

/// Puts the members of those joint answers that have one who is picked.
fn put_partners(
    found: &mut Vec<Tx>,
    picked: &[Tx],
    joints: &[JointAnswer],
) -> Result<(), AllocError>
    ensures { OnOk result (found.new.items
        ≡ found.old.items ++ flat_map (λ joint. if_met picked.now joint.members.items) joints.now) }
{
    for joint in joints {
        put_if_met(found, picked, joint.members.as_slice())?;
    }
    Ok(())
}

/// Adds all who met a picked transaction in an exchange.
fn put_companies(
    alloc: Global,
    found: &mut Vec<Tx>,
    picked: &[Tx],
    trace: &[Exchange],
) -> Result<(), AllocError>
    ensures { OnOk result (found.new.items ≡ found.old.items ++ flat_map (λ exchange.
        flat_map (if_met picked.now) (companies_of exchange.event exchange.reply)) trace.now) }
{
    for exchange in trace {
        put_company(alloc, found, picked, exchange)?;
    }
    Ok(())
}

fn is_picked(picked: &[Tx], tx: Tx) -> bool
    ensures { result ≡ is_picked picked.now tx }
{
    picked.contains(&tx)
}

/// Whether one of a company is picked.
fn is_one_picked(picked: &[Tx], company: &[Tx]) -> bool
    ensures { result ≡ list_any (is_picked picked.now) company.now }
{
    company.iter().any(|tx| is_picked(picked, *tx))
}

/// Puts all of a company, where one of it is picked.
fn put_if_met(found: &mut Vec<Tx>, picked: &[Tx], company: &[Tx]) -> Result<(), AllocError>
    ensures { OnOk result (found.new.items ≡ found.old.items ++ if_met picked.now company.now) }
{
    if is_one_picked(picked, company) {
        found.extend_from_slice(company)?;
    }
    Ok(())
}

/// Puts those who meet in an exchange, where one of them is picked.
fn put_company(
    alloc: Global,
    found: &mut Vec<Tx>,
    picked: &[Tx],
    exchange: &Exchange,
) -> Result<(), AllocError>
    ensures { OnOk result (found.new.items ≡ found.old.items
        ++ flat_map (if_met picked.now) (companies_of exchange.now.event exchange.now.reply)) }
{
    match &exchange.reply {
        Reply::Blocked(holder) => put_with(alloc, found, picked, exchange.event, &[*holder]),
        Reply::HeldBack(demand) => {
            let of_demand = [demand.asker, demand.first, demand.second];
            put_with(alloc, found, picked, exchange.event, &of_demand)
        }
        Reply::Committed(commits) => {
            let members = members_of(alloc, commits.as_slice())?;
            put_if_met(found, picked, members.as_slice())
        }
        Reply::RolledBack(group) => put_if_met(found, picked, group.as_slice()),
        Reply::Failed(_, group) => put_if_met(found, picked, group.as_slice()),
        Reply::Broken { cycle, group } => {
            put_if_met(found, picked, cycle.as_slice())?;
            put_if_met(found, picked, group.as_slice())
        }
        _ => Ok(()),
    }
}

/// Puts the transaction that is begun and those that it meets, where one of all these is picked.
fn put_with(
    alloc: Global,
    found: &mut Vec<Tx>,
    picked: &[Tx],
    event: Event,
    others: &[Tx],
) -> Result<(), AllocError>
    ensures { OnOk result (found.new.items
        ≡ found.old.items ++ flat_map (if_met picked.now) (begun_with event others.now)) }
{
    let Event::Begin(tx) = event else {
        return Ok(());
    };
    let mut company = Vec::new(alloc);
    company.push(tx)?;
    company.extend_from_slice(others)?;
    put_if_met(found, picked, company.as_slice())
}

/// The transactions of commits.
pub(crate) fn members_of(alloc: Global, commits: &[Commit]) -> Result<Vec<Tx>, AllocError>
    ensures { IfOk result (λ members. members.items ≡ members_of_commits commits.now) }
{
    let mut members = Vec::new(alloc);
    for commit in commits {
        members.push(commit.tx)?;
    }
    Ok(members)
}
