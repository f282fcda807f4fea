//! One move of a core: an event, and the result of the job that it lends.
ghost use Rattle.std.specs.Prelude.{◌≡◌, [], ℕ, IfErr, IfOk, OnErr};
ghost use Rattle.ent_core.specs.Reply.{reply_seen};
ghost use Rattle.ent_driver.specs.Moves.{Goes, IsNotMade, Makes, Moves, Sticks, StopsMove, TakesResult, event_of};
ghost use Rattle.ent_driver.specs.declared.fault.DriverFault.TheVariants.{Vacant};
ghost use Rattle.ent_sched.specs.Passed.{resolved_forms};
ghost use Rattle.ent_protocol.specs.Event.{Begin, Pick};
ghost use Rattle.ent_protocol.specs.Job.{IsEvaluated};
ghost use Rattle.ent_sched.specs.Progress.{IsJustLent};

use crate::driver::Driver;
use crate::fault::DriverFault;
use ent_core::{Core, Reply};
use ent_eval::{Done, Job, evaluate};
use ent_form::FormFault;
use ent_group::Tx;
use ent_protocol_laws::{jobs_are_lent_by_replies, results_are_taken_at_once};
use ent_trace::{WrittenText, put_reply};
use std::alloc::{AllocError, Global};

/// What a caller asks a core for who makes one event at a time. The job that a move lends is carried out within it, so
/// that a caller hands in no results.
#[derive(Clone, Copy, Debug, PartialEq, Eq)]
pub enum Move {
    /// A run starts.
    StartRun,
    /// The member of this number begins its next statement, or ends as its script does.
    Begin(Tx),
    /// A component of the statements that are posted is answered together.
    Pick,
    /// A deadlock is looked for, and broken.
    BreakCycle,
    /// The run ends, where nothing can move in it.
    EndRun,
}

/// Hands in the result of the job that was just lent to a member: its statement is done, or its group is rolled back.
/// Where memory runs out the job stays lent.
fn finish(core: &mut Core, done: Done) -> Result<Reply, AllocError>
    requires meaning { IsEvaluated done }
    requires lent { (tx : ℕ) × IsJustLent resolved_forms (Begin tx) done.job core.old }
    ensures ok { (tx : ℕ) → IfOk result (λ reply.
        TakesResult (Begin tx) done.job core.old (reply_seen reply) core.new) }
    ensures err { OnErr result (core.new ≡ core.old) }
{
    jobs_are_lent_by_replies::<FormFault>();
    results_are_taken_at_once::<FormFault>();
    match core.finish_at_once(done) {
        Ok(reply) => Ok(reply),
        Err(refused) => {
            drop(refused);
            Err(AllocError)
        }
    }
}

/// Hands in the result of the job of the component that was just picked: the members have their answers, or there is
/// no choice. Where memory runs out the job stays lent.
fn answer(core: &mut Core, done: Done) -> Result<Reply, AllocError>
    requires meaning { IsEvaluated done }
    requires lent { IsJustLent resolved_forms Pick done.job core.old }
    ensures ok { IfOk result (λ reply. TakesResult Pick done.job core.old (reply_seen reply) core.new) }
    ensures err { OnErr result (core.new ≡ core.old) }
{
    jobs_are_lent_by_replies::<FormFault>();
    results_are_taken_at_once::<FormFault>();
    match core.join_answer_at_once(done) {
        Ok(reply) => Ok(reply),
        Err(refused) => {
            drop(refused);
            Err(AllocError)
        }
    }
}

/// What a job comes to.
fn result_of(alloc: Global, job: Job) -> Result<Done, AllocError>
    ensures ok { IfOk result (λ done. done.job ≡ job) }
    ensures meaning { IfOk result (λ done. IsEvaluated done) }
{
    match evaluate(alloc, job) {
        Ok(done) => Ok(done),
        Err(refused) => {
            drop(refused);
            Err(AllocError)
        }
    }
}

/// A member begins its next statement, and a job that is lent is carried out at once. Where memory runs out nothing is
/// done, or the job stays lent.
fn begin(alloc: Global, core: &mut Core, tx: Tx) -> Result<Reply, AllocError>
    requires none_lent { core.old.lent ≡ [] }
    ensures ok { IfOk result (λ reply. Goes (Begin tx) core.old (reply_seen reply) core.new) }
    ensures err { OnErr result (Sticks (Begin tx) core.old core.new) }
{
    jobs_are_lent_by_replies::<FormFault>();
    let reply = core.begin(tx)?;
    match reply {
        Reply::Lent(job) => {
            let done = result_of(alloc, job)?;
            Ok(finish(core, done)?)
        }
        other => Ok(other),
    }
}

/// A component is picked, where there is one, and answered at once. Where memory runs out nothing is done, or the job
/// stays lent.
fn pick(alloc: Global, core: &mut Core) -> Result<Reply, AllocError>
    requires none_lent { core.old.lent ≡ [] }
    ensures ok { IfOk result (λ reply. Goes Pick core.old (reply_seen reply) core.new) }
    ensures err { OnErr result (Sticks Pick core.old core.new) }
{
    jobs_are_lent_by_replies::<FormFault>();
    let reply = core.pick()?;
    match reply {
        Reply::Lent(job) => {
            let done = result_of(alloc, job)?;
            Ok(answer(core, done)?)
        }
        other => Ok(other),
    }
}

/// Makes the event of a move where no job is lent, and carries a job out that it lends. Where memory runs out nothing
/// is done, or the job stays lent.
fn go(alloc: Global, core: &mut Core, asked: Move) -> Result<Reply, AllocError>
    requires none_lent { core.old.lent ≡ [] }
    ensures ok { IfOk result (λ reply. Goes (event_of asked) core.old (reply_seen reply) core.new) }
    ensures err { OnErr result (Sticks (event_of asked) core.old core.new) }
{
    jobs_are_lent_by_replies::<FormFault>();
    match asked {
        Move::StartRun => Ok(core.start_run()?),
        Move::Begin(tx) => begin(alloc, core, tx),
        Move::Pick => pick(alloc, core),
        Move::BreakCycle => Ok(core.break_cycle()),
        Move::EndRun => Ok(core.end_run()?),
    }
}

/// Takes all jobs back, and makes a move: its event, and where that lends a job the job's result too, whose reply is
/// told then. Where memory runs out, what was done stands, and the move may be made again; a deadlock is broken without
/// memory.
pub(crate) fn make_move(alloc: Global, core: &mut Core, asked: Move) -> Result<Reply, AllocError>
    ensures ok { IfOk result (λ reply. Makes asked core.old (reply_seen reply) core.new) }
    ensures err { OnErr result (StopsMove asked core.old core.new) }
{
    jobs_are_lent_by_replies::<FormFault>();
    drop(core.recall());
    go(alloc, core, asked)
}

/// The line of the reply to a move, as a trace has it, with its end.
pub fn reply_text(alloc: Global, reply: &Reply) -> Result<Vec<u8>, AllocError> {
    let mut text = WrittenText::new(alloc);
    put_reply(alloc, &mut text, reply, 0);
    if text.is_cut_off() {
        return Err(AllocError);
    }
    Ok(text.into_bytes())
}

impl Driver {
    /// Takes all jobs back that an earlier call left lent since memory ran out, and makes a move: one event, and where
    /// that lends a job the job's result too. The reply is that of the result then, and never `Lent`; a refusal is a
    /// reply too, and changes nothing. Where memory runs out, what was done stands, and the move may be made again; a
    /// deadlock is broken without memory. `Vacant` where nothing is open, and nothing changes.
    pub fn make(&mut self, alloc: Global, asked: Move) -> Result<Reply, DriverFault>
        ensures ok { IfOk result (λ reply. Moves asked self.old (reply_seen reply) self.new) }
        ensures stopped { IfErr result (λ fault. IsNotMade asked self.old self.new fault) }
        ensures vacant { IfErr result (λ fault. fault ≡ Vacant → self.new ≡ self.old) }
    {
        match self {
            Driver::Open(core) => Ok(make_move(alloc, core, asked)?),
            _ => Err(DriverFault::Vacant),
        }
    }
}
