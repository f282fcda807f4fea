//! A member begins its next statement.
ghost use Rattle.std.specs.Prelude.{◌≡◌, Some, None, IfErr, IfOk, IsOk, OnErr, OnOk};
ghost use Rattle.std.specs.Arc.{arc_value};
ghost use Rattle.ent_semantics.specs.Pool.{Unsafe as UnsafePost};
ghost use Rattle.ent_core.specs.Begin.{IsFreeMember, IsToLend, IsToPost, IsUnposted, LendsTo, MayBegin};
ghost use Rattle.ent_core.specs.Begin.{begin_refusal_seen, job_uses};
ghost use Rattle.ent_core.specs.Kept.{IsKeptState};
ghost use Rattle.ent_core.specs.Reply.{reply_seen};
ghost use Rattle.ent_match.specs.declared.fault.PostFault.TheVariants as post_faults;
ghost use Rattle.ent_run.specs.Places.{IsAt};
ghost use Rattle.ent_members.specs.Next.{next_seen};
ghost use Rattle.ent_protocol.specs.Member.{Ordinary, RollsBack, active_member, next_of, posted_as};
ghost use Rattle.ent_protocol.specs.Begin.{Begins};
ghost use Rattle.ent_protocol.specs.Event as replies;
ghost use Rattle.ent_protocol.specs.State.{Member};
ghost use Rattle.ent_protocol.specs.Uses.{blocker, statement_uses};
ghost use Rattle.ent_protocol.specs.Waits.{next_uses};
ghost use Rattle.ent_waits.specs.Free.{IsFree, IsIdle};

use crate::commit::commit;
use crate::reply::Reply;
use crate::store::Store;
use crate::take_out::roll_back;
use ent_form::FormFault;
use ent_group::Tx;
use ent_headline::{begun_statements_are_work, used_tables_are_declared};
use ent_job::{Job, Single, Work};
use ent_match::{PostFault, Posted, same_statements_are_alike};
use ent_members::{Cause, Next, RunMember, Uses, entangled_uses, statement_uses};
use ent_protocol_laws::{
    attempts_stay_within, members_stand_by_number, scripts_are_few, transactions_are_counted,
    transactions_stand_once,
};
use ent_semantics::{Entangled, Statement};
use ent_value::Value;
use ent_waits::unsafe_post;
use std::alloc::AllocError;
use std::sync::Arc;

/// Why a member may not begin what comes next.
#[derive(Clone, Copy, Debug, PartialEq, Eq)]
pub enum BeginRefusal {
    /// No such member of the run.
    Absent,
    /// It is prepared, or its statement is in the pool, or the result of its job is awaited.
    NotNow,
    /// The least member that holds a use in conflict with one of those that it asks for.
    Blocked(Tx),
}

impl BeginRefusal {
    /// What is replied to a begin that is refused so.
    pub fn reply(self) -> Reply
        ensures { reply_seen result ≡ begin_refusal_seen self }
    {
        match self {
            BeginRefusal::Absent => Reply::Absent,
            BeginRefusal::NotNow => Reply::NotNow,
            BeginRefusal::Blocked(holder) => Reply::Blocked(holder),
        }
    }
}

/// A member that nothing keeps from what comes next, as [`Core::free_member`](crate::Core::free_member) found it: its
/// number, and its place among those that aren't prepared. It is valid until the next event.
#[derive(Clone, Copy)]
pub struct FreeMember {
    pub(crate) tx: Tx,
    pub(crate) place: usize,
}

impl FreeMember {
    pub fn tx(self) -> Tx
        ensures { result ≡ self.tx }
    {
        self.tx
    }

    /// The member itself.
    pub(crate) fn member(self, store: &Store) -> RunMember<'_>
        requires { IsFreeMember store.now self }
        ensures there { active_member store.now self.tx ≡ Some result }
        ensures number { result.tx ≡ self.tx }
        ensures free { IsFree store.now result }
    {
        store.run.at(self.place)
    }
}

/// What a member does next.
pub(crate) fn next_of(store: &Store, member: &RunMember) -> Result<Next, AllocError>
    ensures next { IfOk result (λ next. next_seen next ≡ next_of store.now member.now) }
    ensures rolls_back { next_of store.now member.now ≡ RollsBack → IsOk result }
{
    ent_members::next_of(store.alloc, store.submitted.as_slice(), member)
}

/// The job of an ordinary statement that nobody blocks.
fn job_of(store: &Store, member: &RunMember, statement: Statement<Value>) -> Result<Job, AllocError>
    requires kept { IsKeptState store.now }
    requires next { MayBegin store.now member.now.tx member.now (Ordinary statement) }
    requires unblocked { blocker store.now member.now (statement_uses statement) ≡ None }
    ensures { IfOk result (IsToLend store.now member.now.tx) }
{
    // Laws: the tables that it uses are there, it fits them, and nobody else is of its number.
    members_stand_by_number::<FormFault>();
    used_tables_are_declared();
    begun_statements_are_work();
    let uses = statement_uses(&statement);
    let _declared = store.tables.len();
    let tables = store.tables.seen(store.alloc, uses.as_slice())?;
    let place = member.place() as u64;
    let single = Single::new(member.tx(), member.attempt(), place, statement);
    Ok(Job::one(single, tables))
}

/// A member's statement, as it is to be posted.
pub(crate) fn query_of(member: &RunMember, statement: Arc<Entangled<Value>>) -> Posted
    ensures { result ≡ posted_as member.now (arc_value statement) }
{
    let place = member.place() as u64;
    Posted::new(member.tx(), member.attempt(), place, statement)
}

/// The least member that blocks what a member does next. It takes no memory, so that it is asked for before
/// the statement is closed.
fn blocker_of(store: &Store, member: &RunMember) -> Option<Tx>
    ensures { result ≡ blocker store.now member.now (next_uses (next_of store.now member.now)) }
{
    ent_waits::blocker_of(&store.run, store.submitted.as_slice(), member)
}

/// The place of the member of a number, where it is at its turn.
fn place_at_turn(store: &Store, tx: Tx) -> Result<usize, BeginRefusal>
    ensures at { IfOk result (IsAt store.now.active tx) }
    ensures idle { OnOk result ((member : Member) → active_member store.now tx ≡ Some member
        → IsIdle store.now member) }
    ensures refused { IfErr result (λ refusal. Begins store.now tx (begin_refusal_seen refusal) store.now) }
{
    let Some(place) = store.run.active_place(tx) else {
        if store.run.is_prepared(tx) {
            return Err(BeginRefusal::NotNow);
        }
        return Err(BeginRefusal::Absent);
    };
    if store.run.at(place).is_posted() {
        return Err(BeginRefusal::NotNow);
    }
    if store.lent.is_lent(tx) {
        return Err(BeginRefusal::NotNow);
    }
    Ok(place)
}

/// The member of a number, where nothing keeps it from what comes next.
pub(crate) fn free_member(store: &Store, tx: Tx) -> Result<FreeMember, BeginRefusal>
    ensures number { IfOk result (λ found. found.tx ≡ tx) }
    ensures free { IfOk result (IsFreeMember store.now) }
    ensures refused { IfErr result (λ refusal. Begins store.now tx (begin_refusal_seen refusal) store.now) }
{
    let place = place_at_turn(store, tx)?;
    match blocker_of(store, &store.run.at(place)) {
        Some(holder) => Err(BeginRefusal::Blocked(holder)),
        None => Ok(FreeMember { tx, place }),
    }
}

/// The uses of the statement that a job carries out alone. Posted statements hold theirs already.
fn job_uses(job: &Job) -> Uses
    ensures { result ≡ job_uses job.now }
{
    match job.work() {
        Work::One(single) => statement_uses(single.statement()),
        Work::Joint(_) => Uses::new(),
    }
}

/// A job is lent, and the member holds the uses of its statement. Where memory runs out nothing changes.
fn lend(store: &mut Store, found: FreeMember, job: Job) -> Result<Reply, AllocError>
    requires at { IsAt store.old.active found.tx found.place }
    requires unposted { IsUnposted store.old found.tx }
    ensures reply { IfOk result (λ reply. reply_seen reply ≡ replies.Lent job) }
    ensures ok { IfOk result (λ reply. LendsTo found.tx job store.old store.new) }
    ensures err { OnErr result (store.new ≡ store.old) }
{
    let uses = job_uses(&job);
    let copy = match job.copy(store.alloc) {
        Ok(copy) => copy,
        Err(fault) => {
            drop(job);
            return Err(fault);
        }
    };
    if let Err(fault) = store.lent.lend(job) {
        drop(copy);
        return Err(fault);
    }
    match store.run.hold_at(found.place, uses.as_slice()) {
        Ok(()) => Ok(Reply::Lent(copy)),
        Err(fault) => {
            drop(copy);
            store.lent.take_back();
            Err(fault)
        }
    }
}

/// What is replied where a statement isn't posted.
fn held_back(why: PostFault) -> Result<Reply, AllocError>
    ensures { IfOk result (λ reply. (fault : UnsafePost)
        × (why ≡ post_faults.Unsafe fault)
        × (reply_seen reply ≡ replies.HeldBack fault)) }
{
    let fault = unsafe_post(why)?;
    Ok(Reply::HeldBack(fault))
}

/// A statement is posted, and the member holds its uses; or it is held back. Where memory runs out nothing changes.
fn post(store: &mut Store, found: FreeMember, query: Posted) -> Result<Reply, AllocError>
    requires kept { IsKeptState store.old }
    requires at { IsAt store.old.active found.tx found.place }
    requires asks { IsToPost store.old found.tx query }
    ensures ok { IfOk result (λ reply. Begins store.old found.tx (reply_seen reply) store.new) }
    ensures err { OnErr result (store.new ≡ store.old) }
{
    same_statements_are_alike();
    members_stand_by_number::<FormFault>();
    let uses = entangled_uses(query.statement());
    if let Err((query, why)) = store.pool.post(query) {
        drop(query);
        return held_back(why);
    }
    if let Err(fault) = store.run.post_at(found.place, uses.as_slice()) {
        store.pool.withdraw(found.tx);
        return Err(fault);
    }
    Ok(Reply::Posted)
}

/// The member of a number begins its next statement, or the end of its script. Where memory runs out nothing changes;
/// a member that rolls back takes none.
pub(crate) fn begin(store: &mut Store, tx: Tx) -> Result<Reply, AllocError>
    requires kept { IsKeptState store.old }
    ensures ok { IfOk result (λ reply. Begins store.old tx (reply_seen reply) store.new) }
    ensures err { OnErr result (store.new ≡ store.old) }
    ensures rolls_back { (member : Member) → active_member store.old tx ≡ Some member
        → next_of store.old member ≡ RollsBack → IsOk result }
{
    match free_member(store, tx) {
        Ok(found) => begin_free(store, found),
        Err(refusal) => Ok(refusal.reply()),
    }
}

/// The same of a member that is free.
pub(crate) fn begin_free(store: &mut Store, found: FreeMember) -> Result<Reply, AllocError>
    requires kept { IsKeptState store.old }
    requires free { IsFreeMember store.old found }
    ensures ok { IfOk result (λ reply. Begins store.old found.tx (reply_seen reply) store.new) }
    ensures err { OnErr result (store.new ≡ store.old) }
    ensures rolls_back { (member : Member) → active_member store.old found.tx ≡ Some member
        → next_of store.old member ≡ RollsBack → IsOk result }
{
    // Laws: there is room for those who leave, each stands once, and each asked for the run that it leaves; numbers are
    // small.
    members_stand_by_number::<FormFault>();
    transactions_are_counted::<FormFault>();
    attempts_stay_within::<FormFault>();
    transactions_stand_once::<FormFault>();
    scripts_are_few::<FormFault>();
    store.asks_for_runs();
    let member = found.member(store);
    match next_of(store, &member)? {
        Next::Ordinary(statement) => {
            let job = job_of(store, &member, statement)?;
            lend(store, found, job)
        }
        Next::Asks(statement) => {
            let query = query_of(&member, statement);
            post(store, found, query)
        }
        Next::Commits => commit(store, found),
        Next::RollsBack => {
            let group = member.group();
            Ok(Reply::RolledBack(roll_back(store, group, Cause::Asked(found.tx))))
        }
    }
}
