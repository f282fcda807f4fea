//! A result of one statement comes in.
ghost use Rattle.std.specs.Prelude.{◌≡◌, ◌<◌, ◌∷◌, [], IfErr, IfOk, IfSome, IsNone, IsOk, IsSome, OnErr, OnOk, Some};
ghost use Rattle.std.specs.Prelude.{length, slice_get};
ghost use Rattle.ent_core.specs.Advance.{Advances, MayAdvance};
ghost use Rattle.ent_core.specs.Begin.{IsUnposted};
ghost use Rattle.ent_core.specs.Finish.{Accepts, CarriesOut, IsReplyTo, MayCarryOut, StandsAt};
ghost use Rattle.ent_core.specs.Kept.{IsKeptState};
ghost use Rattle.ent_core.specs.Reply.{reply_seen};
ghost use Rattle.ent_eval.specs.Result.{alone_seen};
ghost use Rattle.ent_run.specs.Places.{found};
ghost use Rattle.ent_protocol.specs.Event.{Reply as Replied};
ghost use Rattle.ent_protocol.specs.Event as replies;
ghost use Rattle.ent_protocol.specs.Finish.{Finishes, IsOutstandingSingle};
ghost use Rattle.ent_protocol.specs.Job as jobs;
ghost use Rattle.ent_protocol.specs.Member.{active_member};
ghost use Rattle.ent_protocol.specs.State.{State};
ghost use Rattle.ent_semantics.specs.declared.answer.Failure.{Failure};
ghost use Rattle.ent_value.specs.declared.refusal.Refusal.TheVariants.{Fault};

use crate::advance::{bind, change, show};
use crate::packed_members::PackedMembers;
use crate::reply::Reply;
use crate::store::Store;
use crate::take_out::roll_back;
use ent_eval::{Done, JobOutcome};
use ent_form::FormFault;
use ent_headline::{resolved_jobs_are_present, used_tables_are_declared};
use ent_job::{Job, LentJobs, Single, Work};
use ent_members::Cause;
use ent_ordinary::Outcome;
use ent_protocol_laws::{
    attempts_stay_within, lent_tables_are_declared, members_stand_by_number, scripts_are_few,
    transactions_are_counted, transactions_stand_once,
};
use ent_run::Run;
use ent_semantics::Failure;
use ent_tables::StoredTables;
use ent_value::Refusal;
use std::alloc::{AllocError, AllocFailed, Global};

/// Where the job of one statement stands among those that are lent; None where it isn't lent, or is a joint one.
pub(crate) fn outstanding(lent: &LentJobs, job: &Job) -> Option<usize>
    ensures some { IfSome result (λ index. slice_get lent.now index ≡ Some job.now) }
    ensures single { IfSome result (λ index. (single : jobs.Single) × (job.now.work ≡ jobs.One single)) }
    ensures none { IsNone result → (s : State) (done : jobs.Done) → s.lent ≡ lent.now → done.job ≡ job.now
        → IsOutstandingSingle s done → ⊥ }
{
    match job.work() {
        Work::One(_) => lent.find(job),
        Work::Joint(_) => None,
    }
}

/// The same where the job is known to stand at an index: no tables are compared.
fn outstanding_at(lent: &LentJobs, index: usize, job: &Job) -> Option<usize>
    requires { slice_get lent.now index ≡ Some job.now }
    ensures some { IfSome result (λ index. slice_get lent.now index ≡ Some job.now) }
    ensures single { IfSome result (λ index. (single : jobs.Single) × (job.now.work ≡ jobs.One single)) }
    ensures none { IsNone result → (s : State) (done : jobs.Done) → s.lent ≡ lent.now → done.job ≡ job.now
        → IsOutstandingSingle s done → ⊥ }
{
    match job.work() {
        Work::One(_) => Some(index),
        Work::Joint(_) => None,
    }
}

/// What became of a statement's member: it goes on, or the statement failed, and these were rolled back with it.
#[derive(Drop)]
pub(crate) enum Carried {
    Stepped,
    Failed(Failure, PackedMembers),
}

/// The member of a statement goes on with what the statement comes to. Where this is a failure, and where memory runs
/// out, nothing changes.
fn advance(
    alloc: Global,
    run: &mut Run,
    tables: &mut StoredTables,
    single: &Single,
    outcome: &Outcome,
) -> Result<(), Refusal<Failure>>
    requires member { IsSome (found run.old.active single.now.tx) }
    requires may { MayAdvance tables.old single.now.statement (alone_seen outcome.now) }
    ensures ok { OnOk result
        (Advances single.now (alone_seen outcome.now) run.old tables.old run.new tables.new) }
    ensures failure { IfErr result (λ refusal. (failure : Failure)
        → refusal ≡ Fault failure
        → alone_seen outcome.now ≡ jobs.Fault failure) }
    ensures memory { IfErr result (λ refusal. (failure : Failure)
        → alone_seen outcome.now ≡ jobs.Fault failure
        → refusal ≡ Fault failure) }
    ensures err { OnErr result ((run.new ≡ run.old) × (tables.new ≡ tables.old)) }
{
    match outcome {
        Outcome::Rows(rows) => Ok(show(alloc, run, single.tx(), rows)?),
        Outcome::Value(value) => Ok(bind(alloc, run, single, value)?),
        Outcome::Changed { count, delta } => {
            Ok(change(alloc, run, tables, single, *count, delta)?)
        }
        Outcome::Fault(failure) => Err(Refusal::Fault(*failure)),
    }
}

/// The statement of a lent job fails: the job is lent no more, and the group of its member, which it tells by number,
/// is rolled back. It takes no memory.
fn fail(store: &mut Store, index: usize, single: &Single, failure: Failure) -> PackedMembers
    requires kept { IsKeptState store.old }
    requires lent { index < length store.old.lent }
    requires there { IsSome (active_member store.old single.now.tx) }
    ensures { CarriesOut store.old index single.now (jobs.Fault failure) (replies.Failed failure result) store.new }
{
    // Laws: what rolling back asks for.
    transactions_are_counted::<FormFault>();
    transactions_stand_once::<FormFault>();
    attempts_stay_within::<FormFault>();
    scripts_are_few::<FormFault>();
    let tx = single.tx();
    let Some(member) = store.run.active_member(tx) else {
        return PackedMembers::new();
    };
    let group = member.group();
    store.lent.take(index);
    roll_back(store, group, Cause::Failing(tx, failure))
}

/// Carries out what the statement of a lent job comes to. Where memory runs out nothing changes; a failure takes none.
fn carry_out(
    store: &mut Store,
    index: usize,
    single: &Single,
    outcome: &Outcome,
) -> Result<Carried, AllocError>
    requires kept { IsKeptState store.old }
    requires lent { index < length store.old.lent }
    requires there { IsSome (active_member store.old single.now.tx) }
    requires unposted { IsUnposted store.old single.now.tx }
    requires may { MayCarryOut store.old single.now.statement (alone_seen outcome.now) }
    ensures ok { IfOk result (λ how. (reply : Replied FormFault) × IsReplyTo (alone_seen outcome.now) how reply
        × CarriesOut store.old index single.now (alone_seen outcome.now) reply store.new) }
    ensures err { OnErr result (store.new ≡ store.old) }
    ensures failure { (failure : Failure) → alone_seen outcome.now ≡ jobs.Fault failure → IsOk result }
{
    let _declared = store.tables.len();
    match advance(
        store.alloc,
        &mut store.run,
        &mut store.tables,
        single,
        outcome,
    ) {
        Ok(()) => {
            store.lent.take(index);
            Ok(Carried::Stepped)
        }
        Err(Refusal::Fault(failure)) => {
            let members = fail(store, index, single, failure);
            Ok(Carried::Failed(failure, members))
        }
        Err(Refusal::Memory) => Err(AllocError),
    }
}

/// Carries out a result whose job stands at a place. One that is nowhere changes nothing.
fn accept(
    store: &mut Store,
    place: Option<usize>,
    done: &Done,
) -> Result<Option<Carried>, AllocError>
    requires kept { IsKeptState store.old }
    requires stands { StandsAt store.old done.now place }
    ensures ok { IfOk result (λ how. Accepts store.old done.now how store.new) }
    ensures err { OnErr result (store.new ≡ store.old) }
    ensures failure { (failure : Failure) → done.now.outcome ≡ jobs.Fault failure → IsOk result }
{
    // Laws: a lent job's member stands before its statement, and its tables are the present ones, as declared.
    members_stand_by_number::<FormFault>();
    resolved_jobs_are_present();
    lent_tables_are_declared::<FormFault>();
    used_tables_are_declared();
    let Some(index) = place else {
        return Ok(None);
    };
    let Work::One(single) = done.job().work() else {
        return Ok(None);
    };
    let JobOutcome::One(outcome) = done.outcome() else {
        return Ok(None);
    };
    let how = carry_out(store, index, single, outcome)?;
    Ok(Some(how))
}

/// The reply to a result that was carried out. What the statement answers is moved.
fn reply_to(how: Carried, done: Done) -> Reply
    ensures { (reply : Replied FormFault) → IsReplyTo done.outcome how reply → reply_seen result ≡ reply }
{
    match how {
        Carried::Failed(failure, members) => Reply::Failed(failure, members),
        Carried::Stepped => match done.into_answer() {
            Some(answer) => Reply::Stepped(answer),
            None => Reply::Absent,
        },
    }
}

/// A result comes in whose job stands at a place, or nowhere: then it is stale, and comes back.
fn take(store: &mut Store, place: Option<usize>, done: Done) -> Result<Reply, AllocFailed<Done>>
    requires kept { IsKeptState store.old }
    requires stands { StandsAt store.old done place }
    ensures ok { IfOk result (λ reply. Finishes store.old done (reply_seen reply) store.new) }
    ensures err { OnErr result (store.new ≡ store.old) }
    ensures returned { IfErr result (λ refused. refused.value ≡ done) }
    ensures failure { (failure : Failure) → done.outcome ≡ jobs.Fault failure → IsOk result }
{
    match accept(store, place, &done) {
        Ok(Some(how)) => Ok(reply_to(how, done)),
        Ok(None) => Ok(Reply::Stale(done)),
        Err(AllocError) => Err(AllocFailed { value: done }),
    }
}

/// A result of one statement comes in. Where its job isn't lent any more it is stale, and comes back. Else the job is
/// lent no more, and its member has the answer; or the statement failed, and the member's group is rolled back, which
/// takes no memory. Where memory runs out nothing changes, and the result comes back too.
pub(crate) fn finish(store: &mut Store, done: Done) -> Result<Reply, AllocFailed<Done>>
    requires kept { IsKeptState store.old }
    ensures ok { IfOk result (λ reply. Finishes store.old done (reply_seen reply) store.new) }
    ensures err { OnErr result (store.new ≡ store.old) }
    ensures returned { IfErr result (λ refused. refused.value ≡ done) }
    ensures failure { (failure : Failure) → done.outcome ≡ jobs.Fault failure → IsOk result }
{
    let place = outstanding(&store.lent, done.job());
    take(store, place, done)
}

/// The same where the job is known to stand at an index: no tables are compared.
pub(crate) fn finish_at(
    store: &mut Store,
    index: usize,
    done: Done,
) -> Result<Reply, AllocFailed<Done>>
    requires kept { IsKeptState store.old }
    requires there { slice_get store.old.lent index ≡ Some done.job }
    ensures ok { IfOk result (λ reply. Finishes store.old done (reply_seen reply) store.new) }
    ensures err { OnErr result (store.new ≡ store.old) }
    ensures returned { IfErr result (λ refused. refused.value ≡ done) }
    ensures failure { (failure : Failure) → done.outcome ≡ jobs.Fault failure → IsOk result }
{
    let place = outstanding_at(&store.lent, index, done.job());
    take(store, place, done)
}
