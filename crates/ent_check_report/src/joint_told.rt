//! What the rule of joint answers wants, and what stands there.
use crate::page::Page;
use ent_check::{Seats, seats_of};
use ent_history::{History, ToldMember};
use ent_semantics::{Fate, Member, element};
use ent_tree::{Script, Statement};
use std::alloc::{AllocError, Global};

/// Why a statement can't be a member of a joint answer.
#[derive(Clone, Copy)]
enum Wrong {
    /// There is no such transaction.
    NotThere,
    DidNotCommit,
    /// There is no such statement, or it isn't entangled.
    NotEntangled,
    /// It is a member of this joint answer too.
    Again(u64),
}

/// Whether a script has an entangled statement of this place.
fn is_entangled_at(script: &Script, place: u64) -> bool {
    match element(script.statements.as_slice(), place) {
        Some(statement) => matches!(statement, Statement::Entangled(_)),
        None => false,
    }
}

/// What is wrong with a member of the joint answer of a number.
fn wrong_with(history: &History, seats: &Seats, joint: u64, member: &Member) -> Option<Wrong> {
    let Some(told) = element(history.transactions.as_slice(), member.tx) else {
        return Some(Wrong::NotThere);
    };
    let Some(script) = element(history.scripts.as_slice(), member.tx) else {
        return Some(Wrong::NotThere);
    };
    if !matches!(told.fate, Fate::Committed { .. }) {
        return Some(Wrong::DidNotCommit);
    }
    if !is_entangled_at(script, member.place) {
        return Some(Wrong::NotEntangled);
    }
    match seats.get(&(member.tx, member.place)) {
        Some(seat) if seat.0 < joint => Some(Wrong::Again(seat.0)),
        _ => None,
    }
}

/// Tells what is wrong with a member.
fn tell_wrong(page: &mut Page, member: &Member, wrong: Wrong) -> Result<(), AllocError> {
    page.words("found: ")?;
    page.place(member.tx, member.place)?;
    match wrong {
        Wrong::NotThere => page.words(", which is no statement of the scripts\n"),
        Wrong::DidNotCommit => {
            page.words(", and tx ")?;
            page.number(member.tx)?;
            page.words(" didn't commit\n")
        }
        Wrong::NotEntangled => page.words(", which is no entangled statement\n"),
        Wrong::Again(joint) => {
            page.words(", which is a member of joint ")?;
            page.number(joint)?;
            page.words(" too\n")
        }
    }
}

/// Tells of the first joint answer that has a member that isn't right.
pub(crate) fn tell_joint(
    alloc: Global,
    page: &mut Page,
    history: &History,
    joint: u64,
) -> Result<(), AllocError> {
    let joints = history.joint_answers.as_slice();
    let seats = seats_of(alloc, joints)?;
    page.words("expected: in joint ")?;
    page.number(joint)?;
    page.words(
        " entangled statements of transactions that committed, each in no joint answer above\n",
    )?;
    let members: &[ToldMember] = match element(joints, joint) {
        Some(told) => told.members.as_slice(),
        None => &[],
    };
    for told in members {
        if let Some(wrong) = wrong_with(history, &seats, joint, &told.member) {
            return tell_wrong(page, &told.member, wrong);
        }
    }
    Ok(())
}

/// The place of the first entangled statement of a transaction that is no member of a joint answer.
fn first_left_out(history: &History, seats: &Seats, tx: u64) -> Option<u64> {
    let script = element(history.scripts.as_slice(), tx)?;
    for (index, statement) in script.statements.as_slice().iter().enumerate() {
        let place = index as u64 + 1;
        if matches!(statement, Statement::Entangled(_)) && !seats.contains_key(&(tx, place)) {
            return Some(place);
        }
    }
    None
}

/// Tells the first committed transaction that has an entangled statement which stands in no joint answer.
pub(crate) fn tell_left_out(
    alloc: Global,
    page: &mut Page,
    history: &History,
    tx: u64,
) -> Result<(), AllocError> {
    let seats = seats_of(alloc, history.joint_answers.as_slice())?;
    page.words("expected: each entangled statement of tx ")?;
    page.number(tx)?;
    page.words(", which committed, is a member of a joint answer\n")?;
    if let Some(place) = first_left_out(history, &seats, tx) {
        page.words("found: ")?;
        page.place(tx, place)?;
        page.words(", which is a member of none\n")?;
    }
    Ok(())
}
