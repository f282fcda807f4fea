//! Jobs that were done.
ghost use Rattle.std.specs.Prelude.{◌≡◌, IfOk, IfErr};
ghost use Rattle.ent_protocol.specs.Job.{IsEvaluated};
ghost use Rattle.ent_protocol.specs.Job as jobs;
ghost use Rattle.ent_job.specs.Work.{IsOne};
ghost use Rattle.ent_eval.specs.Result.{CanBeMade, IsRight, alone_seen, answer_of, outcome_seen};

use crate::joint::choice;
use crate::outcome::JobOutcome;
use ent_job::{Job, Single, Work};
use ent_ordinary::{Outcome, statement_outcome};
use ent_rel::NumberedTable;
use ent_semantics::Answer;
use std::alloc::{AllocError, Global};
use std::marker::Model;

/// A job that was done, and what it came to: the meaning of its own work over its own tables. It is made by
/// evaluation alone.
pub struct Done {
    job: Job,
    outcome: JobOutcome,
}

impl Drop for Done {
    fn drop(self) {
        let Done {
            job: _job,
            outcome: _outcome,
        } = self;
    }
}

impl Model for Done {
    ghost use Rattle.std.specs.Coded.{codes};
    ghost use Rattle.ent_rel.specs.Relation.{coded_rows};
    ghost use Rattle.ent_protocol.specs.Job.{Done as JobDone};

    ghost Value = { JobDone };

    ghost coded = { Prim.hlevel (codes, coded_rows) };

    ghost use Rattle.ent_eval.specs.Result.{IsRight, outcome_seen};

    ghost view = { λ d. record { job = d.job; outcome = outcome_seen d.outcome } };

    ghost invariant = { λ d. IsRight record { job = d.job; outcome = outcome_seen d.outcome } };
}

/// A job that there was no memory to do.
#[derive(Drop)]
pub struct NotDone {
    pub job: Job,
}

impl Done {
    /// The same: statements and the outcome are copied, tables are shared.
    pub fn copy(&self, alloc: Global) -> Result<Self, AllocError>
        ensures { IfOk result (λ copy. copy ≡ self.now) }
    {
        let job = self.job.copy(alloc)?;
        let outcome = self.outcome.copy(alloc)?;
        Ok(Done { job, outcome })
    }

    pub fn job(&self) -> &Job
        ensures { result.now ≡ self.now.job }
    {
        &self.job
    }

    /// What the job came to.
    pub fn outcome(&self) -> &JobOutcome
        ensures outcome { outcome_seen result.now ≡ self.now.outcome }
        ensures meaning { IsEvaluated self.now }
        ensures change { CanBeMade self.now.job.tables self.now.outcome }
    {
        &self.outcome
    }

    /// What the statement answers, moved out: rows aren't copied. None where it can't be carried out, and where the job
    /// is one of several statements.
    pub fn into_answer(self) -> Option<Answer>
        ensures { result ≡ answer_of self.outcome }
    {
        let Done { job: _job, outcome } = self;
        outcome.into_answer()
    }
}

/// What the statement of one transaction comes to.
fn one_outcome(
    alloc: Global,
    single: &Single,
    tables: &[NumberedTable],
) -> Result<Outcome, AllocError>
    requires { IsOne single.now tables.now }
    ensures { IfOk result (λ outcome. IsRight record {
      job = record { work = jobs.One single.now; tables = tables.now };
      outcome = alone_seen outcome;
    }) }
{
    statement_outcome(alloc, single.statement(), tables)
}

/// What a job comes to.
fn outcome_of(alloc: Global, job: &Job) -> Result<JobOutcome, AllocError>
    ensures { IfOk result (λ outcome. IsRight record { job = job.now; outcome = outcome_seen outcome }) }
{
    match job.work() {
        Work::One(single) => Ok(JobOutcome::One(one_outcome(alloc, single, job.tables())?)),
        Work::Joint(asked) => Ok(JobOutcome::Choice(choice(
            alloc,
            asked.as_slice(),
            job.tables(),
        )?)),
    }
}

/// Does a job. Where memory runs out it comes back.
pub fn evaluate(alloc: Global, job: Job) -> Result<Done, NotDone>
    ensures ok { IfOk result (λ done. done.job ≡ job) }
    ensures meaning { IfOk result (λ done. IsEvaluated done) }
    ensures returned { IfErr result (λ refused. refused.job ≡ job) }
{
    match outcome_of(alloc, &job) {
        Ok(outcome) => Ok(Done { job, outcome }),
        Err(_) => Err(NotDone { job }),
    }
}
