//! Lent jobs and their results, each with the stamp of its lending.
ghost use Rattle.std.specs.Prelude.{◌≡◌, IfErr, IfOk};
ghost use Rattle.ent_stamp.specs.Stamps.{IsStampOf};
ghost use Rattle.ent_protocol.specs.Job.{IsEvaluated};

use crate::naming::Naming;
use crate::stamp::Stamp;
use ent_eval::{Done, Job, evaluate};
use std::alloc::{AllocFailed, Global};
use std::marker::Model;

/// A job that was lent, with its stamp. Contracts see the job.
#[derive(Drop)]
pub struct StampedJob<L: Naming> {
    job: Job,
    stamp: Stamp<L>,
}

impl<L: Naming> Model for StampedJob<L> {
    ghost use Rattle.std.specs.Coded.{codes};
    ghost use Rattle.ent_rel.specs.Relation.{coded_rows};
    ghost use Rattle.ent_stamp.specs.Stamps.{IsStampOf};
    ghost use Rattle.ent_protocol.specs.Job.{Job as Seen};

    ghost Value = { Seen };

    ghost coded = { Prim.hlevel (codes, coded_rows) };

    ghost view = { λ s. s.job };

    ghost invariant = { λ s. IsStampOf s.stamp s.job };
}

/// The result of a job that was lent, with the job's stamp. Contracts see the result.
#[derive(Drop)]
pub struct StampedDone<L: Naming> {
    done: Done,
    stamp: Stamp<L>,
}

impl<L: Naming> Model for StampedDone<L> {
    ghost use Rattle.std.specs.Coded.{codes};
    ghost use Rattle.ent_rel.specs.Relation.{coded_rows};
    ghost use Rattle.ent_stamp.specs.Stamps.{IsStampOf};
    ghost use Rattle.ent_protocol.specs.Job.{Done as Seen};

    ghost Value = { Seen };

    ghost coded = { Prim.hlevel (codes, coded_rows) };

    ghost view = { λ s. s.done };

    ghost invariant = { λ s. IsStampOf s.stamp s.done.job };
}

impl<L: Naming> StampedJob<L> {
    pub(crate) fn new(job: Job, stamp: Stamp<L>) -> Self
        requires { IsStampOf stamp job }
        ensures { result ≡ job }
    {
        StampedJob { job, stamp }
    }

    pub fn job(&self) -> &Job
        ensures { result.now ≡ self.now }
    {
        &self.job
    }

    /// Does the job. Where memory runs out it comes back. It takes long, so no lock is to be held.
    pub fn evaluate(self, alloc: Global) -> Result<StampedDone<L>, AllocFailed<StampedJob<L>>>
        ensures ok { IfOk result (λ done. done.job ≡ self) }
        ensures meaning { IfOk result (λ done. IsEvaluated done) }
        ensures returned { IfErr result (λ refused. refused.value ≡ self) }
    {
        let StampedJob { job, stamp } = self;
        match evaluate(alloc, job) {
            Ok(done) => Ok(StampedDone { done, stamp }),
            Err(refused) => Err(AllocFailed {
                value: StampedJob {
                    job: refused.job,
                    stamp,
                },
            }),
        }
    }
}

impl<L: Naming> StampedDone<L> {
    pub fn new(done: Done, stamp: Stamp<L>) -> Self
        requires { IsStampOf stamp done.job }
        ensures { result ≡ done }
    {
        StampedDone { done, stamp }
    }

    pub fn done(&self) -> &Done
        ensures { result.now ≡ self.now }
    {
        &self.done
    }

    pub fn stamp(&self) -> &Stamp<L>
        ensures { IsStampOf result.now self.now.job }
    {
        &self.stamp
    }

    pub fn into_parts(self) -> (Done, Stamp<L>)
        ensures done { result.0 ≡ self }
        ensures stamp { IsStampOf result.1 self.job }
    {
        let StampedDone { done, stamp } = self;
        (done, stamp)
    }
}
