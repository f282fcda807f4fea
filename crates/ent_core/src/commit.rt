//! A member asks to commit.
ghost use Rattle.std.specs.Prelude.{◌≡◌, ◌+◌, ◌≤◌, ◌++◌, IfOk, OnErr, Some, length, map};
ghost use Rattle.std.specs.Vec.{vec_capacity, vec_len};
ghost use Rattle.ent_core.specs.Begin.{IsFreeMember, IsUnposted};
ghost use Rattle.ent_core.specs.Reply.{reply_seen};
ghost use Rattle.ent_protocol.specs.Begin.{BeginsCommit};
ghost use Rattle.ent_protocol.specs.Commit.{entry_of, is_ready, preparing};
ghost use Rattle.ent_protocol.specs.Member.{active_member};
ghost use Rattle.ent_protocol.specs.State.{Member as Seen, members};
ghost use Rattle.ent_protocol_laws.specs.Attempts.{StayWithin};
ghost use Rattle.ent_tree.specs.declared.limits.TheConstants.{MOST_SCRIPTS};

use crate::begin::FreeMember;
use crate::packed_members::PackedMembers;
use crate::reply::Reply;
use crate::store::Store;
use ent_group::MOST_MEMBERS;
use ent_members::Progress;
use ent_run::member_numbers;
use ent_semantics::Entry;
use ent_value::Sequence;
use std::alloc::AllocError;

/// The entries of members that commit stand last in the journal, in their order; there is room for them.
fn enter(journal: &mut Vec<Entry>, committed: &mut Vec<Progress>)
    requires { vec_len journal.old + vec_len committed.old ≤ vec_capacity journal.old }
    ensures entries { journal.new.items ≡ journal.old.items ++ map entry_of committed.old.items }
    ensures more { vec_len journal.new ≡ vec_len journal.old + vec_len committed.old }
    ensures room { vec_capacity journal.new ≡ vec_capacity journal.old }
{
    if let Some(member) = committed.pop() {
        enter(journal, committed);
        journal.push_reserved(Entry {
            tx: member.tx(),
            answers: Sequence::from_vec(member.into_answers()),
        });
    }
}

/// A member that is free prepares; where every member of its group has, the group commits.
pub(crate) fn commit(store: &mut Store, found: FreeMember) -> Result<Reply, AllocError>
    requires free { IsFreeMember store.old found }
    requires unposted { IsUnposted store.old found.tx }
    requires counted { length store.old.fates + length store.old.dormant + length (members store.old)
        ≡ length store.old.submitted }
    requires within { StayWithin store.old }
    requires few { length store.old.submitted ≤ MOST_SCRIPTS }
    ensures ok { IfOk result (λ reply. (member : Seen) → active_member store.old found.tx ≡ Some member
        → BeginsCommit (preparing store.old member) member.group (is_ready (preparing store.old member) member.group)
        (reply_seen reply) store.new) }
    ensures err { OnErr result (store.new ≡ store.old) }
{
    let group = found.member(store).group();
    let most = store.run.prepared_len() + 1;
    let room = Vec::with_capacity(store.alloc, most)?;
    store.journal.reserve(MOST_MEMBERS)?;
    store.run.prepare_at(found.place)?;
    let Some(mut committed) = store.run.commit(group, room) else {
        return Ok(Reply::Prepared);
    };
    let numbers = member_numbers(committed.as_slice());
    let first = store.journal.len() as u64 + 1;
    store.transaction_table.commit(first, committed.as_slice());
    store.tables.settle(&numbers);
    enter(&mut store.journal, &mut committed);
    let members = PackedMembers::of(&numbers);
    Ok(Reply::Committed { first, members })
}
