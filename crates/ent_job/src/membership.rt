//! What one job is of.
ghost use Rattle.std.specs.Prelude.{◌≡◌};
ghost use Rattle.ent_job.specs.Lent.{goes_with_any};

use crate::job::Job;
use crate::work::Work;
use ent_group::{Members, Tx};

/// Whether a job goes with the members of these numbers: one of their own statements, or any joint one.
pub(crate) fn goes_with(job: &Job, numbers: &Members) -> bool
    ensures { result ≡ goes_with_any numbers.now job.now }
{
    match job.work() {
        Work::One(single) => numbers.contains(single.tx()),
        Work::Joint(_) => true,
    }
}
