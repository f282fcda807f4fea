//! Replies, each as a line has it.
ghost use Rattle.std.specs.Prelude.{◌≡◌, ◌++◌, codes, IfOk, IfSome};
ghost use Rattle.std.specs.List.{flat_map};
ghost use Rattle.ent_picture.specs.Trace.{listed, paired, reply_line};

use crate::answer::answer;
use crate::exchange::{Commit, Demand, Event, Reply};
use crate::words::{Read, divided, misfit, pair, transactions, whole_number};
use ent_group::Tx;
use ent_semantics::Failure;
use std::alloc::Global;

/// The reply of a line.
pub(crate) fn reply(alloc: Global, line: &str) -> Read<Reply>
    ensures ok { IfOk result (λ reply. line.now ≡ reply_line reply) }
{
    match line {
        "posted" => Ok(Reply::Posted),
        "prepared" => Ok(Reply::Prepared),
        "nothing" => Ok(Reply::Nothing),
        "answered" => Ok(Reply::Answered),
        "no choice" => Ok(Reply::NoChoice),
        "no cycle" => Ok(Reply::NoCycle),
        "recalled" => Ok(Reply::Recalled),
        "ended" => Ok(Reply::Ended(Vec::new(alloc))),
        "E401" => refused(alloc, b"401"),
        "E402" => refused(alloc, b"402"),
        "E403" => refused(alloc, b"403"),
        _ => match divided(line) {
            Some((word, about)) => reply_about(alloc, word, about),
            None => misfit(),
        },
    }
}

/// The event was refused, with these words behind the E.
fn refused(alloc: Global, words: &[u8]) -> Read<Reply>
    ensures ok { IfOk result (λ reply. codes "E" ++ words.now ≡ reply_line reply) }
{
    Ok(Reply::Refused(Vec::from_slice(alloc, words)?))
}

fn reply_about(alloc: Global, word: &str, about: &str) -> Read<Reply>
    ensures ok { IfOk result (λ reply. word.now ++ (codes " " ++ about.now) ≡ reply_line reply) }
{
    match word {
        "started" => Ok(Reply::Started(transactions(alloc, about)?)),
        "blocked" => Ok(Reply::Blocked(whole_number(about)?)),
        "lent" => Ok(Reply::Lent(whole_number(about)?)),
        "held" => held_back(alloc, about),
        "committed" => Ok(Reply::Committed(commits(alloc, about)?)),
        "rolled" => rolled_back(alloc, about),
        "stepped" => Ok(Reply::Stepped(answer(alloc, about)?)),
        "failed" => failed(alloc, about),
        "broken" => broken(alloc, about),
        "ended" => Ok(Reply::Ended(transactions(alloc, about)?)),
        "E404" => not_ended(alloc, about),
        _ => misfit(),
    }
}

/// What stands behind a word and a blank.
fn behind_word<'a>(word: &str, text: &'a str) -> Read<&'a str>
    ensures ok { IfOk result (λ rest. text.now ≡ word.now ++ (codes " " ++ rest.now)) }
{
    match divided(text) {
        Some((first, rest)) if first == word => Ok(rest),
        _ => misfit(),
    }
}

fn rolled_back(alloc: Global, about: &str) -> Read<Reply>
    ensures ok { IfOk result (λ reply. codes "rolled" ++ (codes " " ++ about.now) ≡ reply_line reply) }
{
    let group = behind_word("back", about)?;
    Ok(Reply::RolledBack(transactions(alloc, group)?))
}

#[tactic(auto, using(crate::proofs::Parts::held_line))]
fn held_back(alloc: Global, about: &str) -> Read<Reply>
    ensures ok { IfOk result (λ reply. codes "held" ++ (codes " " ++ about.now) ≡ reply_line reply) }
{
    let demand = behind_word("back", about)?;
    match divided(demand) {
        Some((post, heads)) => {
            let (asker, post) = pair(post)?;
            let heads = transactions(alloc, heads)?;
            demand_of(asker, post, heads.as_slice())
        }
        None => misfit(),
    }
}

fn demand_of(asker: Tx, post: u64, heads: &[Tx]) -> Read<Reply>
    ensures ok { IfOk result (λ reply.
        codes "held back" ++ (paired asker post ++ listed heads.now) ≡ reply_line reply) }
{
    match heads {
        [first, second] => Ok(Reply::HeldBack(Demand {
            asker,
            post,
            first: *first,
            second: *second,
        })),
        _ => misfit(),
    }
}

/// Commit numbers with their transactions.
#[tactic(auto, using(crate::proofs::Parts::commits_go_on, crate::proofs::Parts::commits_end, crate::proofs::Parts::others_shorter))]
fn commits(alloc: Global, text: &str) -> Read<Vec<Commit>>
    ensures ok { IfOk result (λ commits.
        codes " " ++ text.now ≡ flat_map (λ commit. paired commit.number commit.tx) commits.items) }
{
    let mut commits = Vec::new(alloc);
    let mut rest = text;
    while let Some((word, others)) = divided(rest) {
        let (number, tx) = pair(word)?;
        commits.push(Commit { number, tx })?;
        rest = others;
    }
    let (number, tx) = pair(rest)?;
    commits.push(Commit { number, tx })?;
    Ok(commits)
}

fn failed(alloc: Global, about: &str) -> Read<Reply>
    ensures ok { IfOk result (λ reply. codes "failed" ++ (codes " " ++ about.now) ≡ reply_line reply) }
{
    match divided(about) {
        Some(("F1", group)) => Ok(Reply::Failed(Failure::Overflow, transactions(alloc, group)?)),
        Some(("F2", group)) => Ok(Reply::Failed(Failure::TableFull, transactions(alloc, group)?)),
        _ => misfit(),
    }
}

/// What stands before the word `group`, and what stands behind it.
fn around_group<'a>(about: &'a str) -> Option<(&'a str, &'a str)>
    ensures { IfSome result (λ parts. about.now ≡ parts.0.now ++ (codes " group " ++ parts.1.now)) }
{
    about.split_once(" group ")
}

#[tactic(auto, using(crate::proofs::Parts::broken_line))]
fn broken(alloc: Global, about: &str) -> Read<Reply>
    ensures ok { IfOk result (λ reply. codes "broken" ++ (codes " " ++ about.now) ≡ reply_line reply) }
{
    match around_group(about) {
        Some((cycle, group)) => Ok(Reply::Broken {
            cycle: transactions(alloc, cycle)?,
            group: transactions(alloc, group)?,
        }),
        None => misfit(),
    }
}

/// Why a run couldn't end.
fn not_ended(alloc: Global, about: &str) -> Read<Reply>
    ensures ok { IfOk result (λ reply. codes "E404" ++ (codes " " ++ about.now) ≡ reply_line reply) }
{
    let members = match divided(about) {
        Some(("job", rest)) => behind_word("out", rest)?,
        Some(("can", rest)) => behind_word("begin", rest)?,
        Some(("untried", rest)) => rest,
        Some(("cycle", rest)) => rest,
        _ => return misfit(),
    };
    transactions(alloc, members)?;
    let mut words = Vec::from_slice(alloc, b"404 ")?;
    words.extend_from_slice(about.as_bytes())?;
    Ok(Reply::Refused(words))
}

/// Whether a reply may be one to an event.
pub(crate) fn is_reply_to(reply: &Reply, event: Event) -> bool {
    match reply {
        Reply::Refused(_) => true,
        Reply::Started(_) => event == Event::StartRun,
        Reply::Lent(_) => is_begin(event) || event == Event::Pick,
        Reply::Blocked(_)
        | Reply::HeldBack(_)
        | Reply::Posted
        | Reply::Prepared
        | Reply::Committed(_)
        | Reply::RolledBack(_) => is_begin(event),
        Reply::Stepped(_) | Reply::Failed(_, _) => is_finish(event),
        Reply::Nothing => event == Event::Pick,
        Reply::Answered | Reply::NoChoice => is_join_answer(event),
        Reply::Broken { .. } | Reply::NoCycle => event == Event::BreakCycle,
        Reply::Ended(_) => event == Event::EndRun,
        Reply::Recalled => event == Event::Recall,
    }
}

fn is_begin(event: Event) -> bool {
    matches!(event, Event::Begin(_))
}

fn is_finish(event: Event) -> bool {
    matches!(event, Event::Finish(_))
}

fn is_join_answer(event: Event) -> bool {
    matches!(event, Event::JoinAnswer(_))
}
