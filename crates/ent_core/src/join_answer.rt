//! A result of a joint job comes in.
ghost use Rattle.std.specs.Prelude.{◌≡◌, ◌<◌, ◌↔◌, ◌∷◌, [], List, Some, IfErr, IfOk, IfSome, IsTrue, OnErr, length};
ghost use Rattle.std.specs.Prelude.{map, nat_eq, slice_get};
ghost use Rattle.std.specs.List.{IsDistinct};
ghost use Rattle.std.specs.Option.{option_map};
ghost use Rattle.ent_semantics.specs.Pool.{Posted as PostedStatement};
ghost use Rattle.ent_core.specs.Joining.{Accepts, AnswersAt};
ghost use Rattle.ent_core.specs.Kept.{IsKeptState};
ghost use Rattle.ent_core.specs.Reply.{reply_seen};
ghost use Rattle.ent_protocol.specs.Job as jobs;
ghost use Rattle.ent_protocol.specs.PoolEvents.{IsOutstandingJoint, IsPresentComponent, JoinsOrIsStale};

use crate::joining::join;
use crate::reply::Reply;
use crate::store::Store;
use ent_eval::{Done, JobOutcome};
use ent_job::Work;
use ent_match::Posted;
use ent_tree::Duplicate;
use ent_value::{Sequence, Value};
use ent_waits::is_present;
use std::alloc::{AllocError, AllocFailed};

/// Whether statements are posted just so, and exactly a component of the pool.
fn is_component(store: &Store, asked: &[Posted]) -> Result<bool, AllocError>
    ensures { IfOk result (λ is. IsTrue is ↔ IsPresentComponent store.now asked.now) }
{
    is_present(store.alloc, &store.pool, asked)
}

/// Carries out what the joint job at an index came to: with a choice its members are answered, without one its
/// statements were tried. It is lent no more. Where memory runs out nothing changes.
fn carry_out(
    store: &mut Store,
    index: usize,
    asked: &Sequence<Posted>,
    choice: &Option<Sequence<Sequence<Value>>>,
) -> Result<Reply, AllocError>
    requires lent { index < length store.old.lent }
    requires one_each { IfSome choice.now (λ groundings. length groundings ≡ length asked.now) }
    requires distinct { IsDistinct nat_eq (map (λ query. query.tx) asked.now) }
    ensures ok { IfOk result (λ reply.
        AnswersAt store.old index asked.now choice.now (reply_seen reply) store.new) }
    ensures err { OnErr result (store.new ≡ store.old) }
{
    match choice {
        Some(groundings) => {
            join(store, asked.as_slice(), groundings.as_slice())?;
            store.lent.take(index);
            Ok(Reply::Answered)
        }
        None => {
            let tried = asked.copy(store.alloc)?;
            store.tried.insert(0, tried)?;
            store.lent.take(index);
            Ok(Reply::NoChoice)
        }
    }
}

/// Carries out a result whose job stands at an index, and whose statements, if it is a joint one, are a component.
/// Another one changes nothing, and gets no reply here.
fn settle(store: &mut Store, index: usize, done: &Done) -> Result<Option<Reply>, AllocError>
    requires lent { slice_get store.old.lent index ≡ Some done.now.job }
    requires component { (asked : List PostedStatement)
        → done.now.job.work ≡ jobs.Joint asked
        → IsPresentComponent store.old asked }
    ensures ok { IfOk result (λ reply. Accepts store.old done.now (option_map reply_seen reply) store.new) }
    ensures err { OnErr result (store.new ≡ store.old) }
{
    let Work::Joint(asked) = done.job().work() else {
        return Ok(None);
    };
    let JobOutcome::Choice(choice) = done.outcome() else {
        return Ok(None);
    };
    let reply = carry_out(store, index, asked, choice)?;
    Ok(Some(reply))
}

/// Carries out a result whose job stands at an index, where it is outstanding. Another one changes nothing, and gets no
/// reply here.
fn accept_at(store: &mut Store, index: usize, done: &Done) -> Result<Option<Reply>, AllocError>
    requires { slice_get store.old.lent index ≡ Some done.now.job }
    ensures ok { IfOk result (λ reply. Accepts store.old done.now (option_map reply_seen reply) store.new) }
    ensures err { OnErr result (store.new ≡ store.old) }
{
    let Work::Joint(asked) = done.job().work() else {
        return Ok(None);
    };
    if is_component(store, asked.as_slice())? {
        settle(store, index, done)
    } else {
        Ok(None)
    }
}

/// Carries out a result that is outstanding. Another one changes nothing, and gets no reply here.
fn accept(store: &mut Store, done: &Done) -> Result<Option<Reply>, AllocError>
    requires kept { IsKeptState store.old }
    ensures ok { IfOk result (λ reply. Accepts store.old done.now (option_map reply_seen reply) store.new) }
    ensures err { OnErr result (store.new ≡ store.old) }
{
    let Some(index) = store.lent.find(done.job()) else {
        return Ok(None);
    };
    accept_at(store, index, done)
}

/// A result of a joint job comes in. Where its job isn't lent any more, or its statements are no component now, it is
/// stale, and comes back. Else the job is lent no more, and its members have their answers; or there is no choice, and
/// the statements were tried. Where memory runs out nothing changes, and the result comes back too.
pub(crate) fn join_answer(store: &mut Store, done: Done) -> Result<Reply, AllocFailed<Done>>
    requires kept { IsKeptState store.old }
    ensures ok { IfOk result (λ reply. JoinsOrIsStale store.old done (reply_seen reply) store.new) }
    ensures err { OnErr result (store.new ≡ store.old) }
    ensures returned { IfErr result (λ refused. refused.value ≡ done) }
{
    match accept(store, &done) {
        Ok(Some(reply)) => {
            drop(done);
            Ok(reply)
        }
        Ok(None) => Ok(Reply::Stale(done)),
        Err(AllocError) => Err(AllocFailed { value: done }),
    }
}

/// The same where the job is known to stand at an index: no tables are compared.
pub(crate) fn join_answer_at(
    store: &mut Store,
    index: usize,
    done: Done,
) -> Result<Reply, AllocFailed<Done>>
    requires { slice_get store.old.lent index ≡ Some done.job }
    ensures ok { IfOk result (λ reply. JoinsOrIsStale store.old done (reply_seen reply) store.new) }
    ensures err { OnErr result (store.new ≡ store.old) }
    ensures returned { IfErr result (λ refused. refused.value ≡ done) }
{
    match accept_at(store, index, &done) {
        Ok(Some(reply)) => {
            drop(done);
            Ok(reply)
        }
        Ok(None) => Ok(Reply::Stale(done)),
        Err(AllocError) => Err(AllocFailed { value: done }),
    }
}

/// The same where just this job is lent, and its result is outstanding: no tables are compared, and no component is
/// sought.
pub(crate) fn join_answer_at_once(store: &mut Store, done: Done) -> Result<Reply, AllocFailed<Done>>
    requires alone { store.old.lent ≡ done.job ∷ [] }
    requires outstanding { IsOutstandingJoint store.old done }
    ensures ok { IfOk result (λ reply. JoinsOrIsStale store.old done (reply_seen reply) store.new) }
    ensures err { OnErr result (store.new ≡ store.old) }
    ensures returned { IfErr result (λ refused. refused.value ≡ done) }
{
    match settle(store, 0, &done) {
        Ok(Some(reply)) => {
            drop(done);
            Ok(reply)
        }
        Ok(None) => Ok(Reply::Stale(done)),
        Err(AllocError) => Err(AllocFailed { value: done }),
    }
}
