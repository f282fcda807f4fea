//! Replies, each as a line has it.
use crate::answer::put_answer;
use crate::text::WrittenText;
use ent_form::FormFault;
use ent_group::Members;
use ent_match::Unsafe;
use ent_sched::{PackedMembers, Reason, Reply};
use ent_semantics::{Answer, Failure};
use std::alloc::Global;

/// The line of a reply, where a job that it lends has this number.
pub fn put_reply(alloc: Global, text: &mut WrittenText, reply: &Reply, number: u64) {
    match reply {
        Reply::Submitted(tx) => text.put_number("number", *tx),
        Reply::Started(members) => put_listed(text, "started", members),
        Reply::Blocked(tx) => text.put_number("blocked", *tx),
        Reply::Lent(_) => text.put_number("lent", number),
        Reply::HeldBack(post) => put_held_back(text, post),
        Reply::Posted => text.put("posted"),
        Reply::Prepared => text.put("prepared"),
        Reply::Committed { first, members } => put_committed(text, *first, &members.unpacked()),
        Reply::RolledBack(members) => put_listed(text, "rolled back", members),
        Reply::Stepped(answer) => put_stepped(alloc, text, answer),
        Reply::Failed(failure, members) => put_failed(text, *failure, members),
        Reply::Nothing => text.put("nothing"),
        Reply::Answered => text.put("answered"),
        Reply::NoChoice => text.put("no choice"),
        Reply::Broken(cycle, group) => put_broken(text, cycle, group),
        Reply::NoCycle => text.put("no cycle"),
        Reply::Ended(members) => put_listed(text, "ended", members),
        Reply::Recalled => text.put("recalled"),
        Reply::Absent => text.put("E401"),
        Reply::NotNow => text.put("E402"),
        Reply::Stale(_) => text.put("E403"),
        Reply::Busy(reason) => put_reason(text, reason.get()),
        Reply::Full(_) => text.put("E406"),
        Reply::Faulty(_, fault) => put_form_fault(text, *fault),
    }
    text.put("\n");
}

fn put_form_fault(text: &mut WrittenText, fault: FormFault) {
    text.put_fault(fault.code(), fault.place());
}

/// The post by its transaction and its number, and the two transactions with a head for it.
fn put_held_back(text: &mut WrittenText, post: &Unsafe) {
    text.put_number("held back", post.asker());
    text.put(".");
    text.put_count(post.post() as u64);
    text.put_number("", post.first());
    text.put_number("", post.second());
}

/// A word, and the members behind it.
fn put_listed(text: &mut WrittenText, word: &str, members: &PackedMembers) {
    text.put_members(word, &members.unpacked());
}

/// Each transaction behind its number in the journal.
fn put_committed(text: &mut WrittenText, first: u64, members: &Members) {
    text.put("committed");
    let mut number = first;
    for tx in members.as_slice() {
        text.put_number("", number);
        text.put(".");
        text.put_count(*tx);
        number = number.saturating_add(1);
    }
}

fn put_stepped(alloc: Global, text: &mut WrittenText, answer: &Answer) {
    text.put("stepped ");
    put_answer(alloc, text, answer);
}

fn put_failed(text: &mut WrittenText, failure: Failure, members: &PackedMembers) {
    text.put("failed ");
    put_listed(text, failure.name(), members);
}

fn put_broken(text: &mut WrittenText, cycle: &PackedMembers, group: &PackedMembers) {
    put_listed(text, "broken", cycle);
    put_listed(text, " group", group);
}

/// Why a run can't end yet.
fn put_reason(text: &mut WrittenText, reason: &Reason) {
    match reason {
        Reason::JobOut(tx) => text.put_number("E404 job out", *tx),
        Reason::CanBegin(tx) => text.put_number("E404 can begin", *tx),
        Reason::Untried(tx) => text.put_number("E404 untried", *tx),
        Reason::Cycle(members) => text.put_members("E404 cycle", members),
    }
}
