//! Why a run can't end yet.
ghost use Rattle.std.specs.Prelude.{◌≡◌, IfOk};
ghost use Rattle.ent_waits.specs.Pooled.{IsPoolOf};
ghost use Rattle.ent_protocol.specs.State.{State};
ghost use Rattle.ent_waits.specs.Quiet.{IsReasonIfAny, state_of};

use crate::cycles::deadlock;
use crate::first_untried;
use crate::jobs::job_out;
use crate::movers::least_mover;
use ent_group::{Members, Tx};
use ent_job::Job;
use ent_match::{Pool, Posted};
use ent_members::SubmittedScript;
use ent_run::Run;
use ent_value::Sequence;
use std::alloc::{AllocError, Global};

/// Why a run can't end yet: the first of these that holds, and the least transaction of which it does.
#[derive(Debug, Drop)]
pub enum Reason {
    /// A job of the transaction is out.
    JobOut(Tx),
    /// The transaction would get another reply to a begin than that it is blocked or held back.
    CanBegin(Tx),
    /// A component that begins with the transaction wasn't tried.
    Untried(Tx),
    /// These wait for each other, each for the next, and the last for the first.
    Cycle(Members),
}

/// Why the run can't end yet; no reason where it may. The pool has to be that of the members that aren't prepared.
pub fn reason_of(
    alloc: Global,
    run: &Run,
    submitted: &[SubmittedScript],
    pool: &Pool,
    tried: &[Sequence<Posted>],
    lent: &[Job],
) -> Result<Option<Reason>, AllocError>
    requires { IsPoolOf submitted.now run.now.active pool.now }
    ensures { IfOk result (λ reason. (s : State)
        → IsReasonIfAny (state_of run.now submitted.now tried.now lent.now s) reason) }
{
    if let Some(tx) = job_out(alloc, pool, lent)? {
        return Ok(Some(Reason::JobOut(tx)));
    }
    if let Some(tx) = least_mover(alloc, run, submitted, lent, pool)? {
        return Ok(Some(Reason::CanBegin(tx)));
    }
    if let Some(tx) = first_untried(alloc, pool, tried)? {
        return Ok(Some(Reason::Untried(tx)));
    }
    match deadlock(run, submitted, lent) {
        Some(cycle) => Ok(Some(Reason::Cycle(cycle))),
        None => Ok(None),
    }
}
