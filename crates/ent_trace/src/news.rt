//! What a reply tells, and of whom.
ghost use Rattle.std.specs.Prelude.{◌≡◌, ◌+◌};
ghost use Rattle.ent_sched.specs.Passed.{reply_seen};
ghost use Rattle.ent_reasons.specs.declared.last_status.LastStatus.TheVariants.{HeldBack};
ghost use Rattle.ent_reasons.specs.declared.note.Change.TheVariants.{Passes, Stands};
ghost use Rattle.ent_reasons.specs.News.{first_party, news};

use ent_group::{Members, Tx};
use ent_match::Unsafe;
use ent_reasons::{Change, LastStatus};
use ent_sched::Reply;

/// What is told of some transactions.
#[derive(Drop)]
pub(crate) struct News {
    pub(crate) of: Members,
    pub(crate) change: Change,
}

/// The first of some transactions, or 0, which is none.
pub(crate) fn first_party(own: &Members) -> Tx
    ensures { result ≡ first_party own.now }
{
    own.get(0).unwrap_or(0)
}

/// Why a statement is held back.
fn held_back(post: &Unsafe) -> LastStatus
    ensures { result ≡ HeldBack post.now.asker (post.now.index + 1) post.now.first post.now.second }
{
    LastStatus::HeldBack {
        asker: post.asker(),
        post: post.post(),
        first: post.first(),
        second: post.second(),
    }
}

/// These transactions have passed a statement.
fn passes(members: Members) -> News
    ensures of { result.of ≡ members }
    ensures change { result.change ≡ Passes }
{
    News {
        of: members,
        change: Change::Passes,
    }
}

/// These transactions are told this, the last so far.
fn stands(members: Members, last_status: LastStatus) -> News
    ensures of { result.of ≡ members }
    ensures change { result.change ≡ Stands last_status }
{
    News {
        of: members,
        change: Change::Stands(last_status),
    }
}

/// What a reply tells, to an event of these transactions.
#[tactic(auto, using(crate::proofs::Hearing::entered_numbered))]
pub(crate) fn news_of(own: &Members, reply: &Reply) -> News
    ensures of { result.of ≡ (news own.now (reply_seen reply.now)).of }
    ensures change { result.change ≡ (news own.now (reply_seen reply.now)).change }
{
    match reply {
        Reply::Started(members) => News {
            of: members.unpacked(),
            change: Change::Starts,
        },
        Reply::Stepped(_) => passes(own.copy()),
        Reply::Answered => passes(own.copy()),
        Reply::Lent(_) => stands(own.copy(), LastStatus::Free),
        Reply::Blocked(holder) => stands(own.copy(), LastStatus::Blocked(*holder)),
        Reply::HeldBack(post) => stands(own.copy(), held_back(post)),
        Reply::Posted => stands(own.copy(), LastStatus::Posted),
        Reply::NoChoice => stands(own.copy(), LastStatus::NoChoice(own.copy())),
        Reply::Prepared => stands(own.copy(), LastStatus::Prepared),
        Reply::Committed { first: _, members } => stands(members.unpacked(), LastStatus::Committed),
        Reply::RolledBack(group) => {
            stands(group.unpacked(), LastStatus::RolledBack(first_party(own)))
        }
        Reply::Failed(failure, group) => {
            stands(
                group.unpacked(),
                LastStatus::Failed(first_party(own), *failure),
            )
        }
        Reply::Broken(cycle, group) => {
            stands(group.unpacked(), LastStatus::Broken(cycle.unpacked()))
        }
        _ => News {
            of: Members::new(),
            change: Change::Passes,
        },
    }
}
