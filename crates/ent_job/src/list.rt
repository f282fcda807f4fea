//! Lists of jobs.
ghost use Rattle.std.specs.Prelude.{◌≡◌, ◌<◌, Some, filter, length, not, slice_get};
ghost use Rattle.std.specs.Prelude.{Contains, IfSome, IsNone};
ghost use Rattle.std.specs.List.{list_any};
ghost use Rattle.ent_job.specs.Lent.{goes_with_any};
ghost use Rattle.ent_protocol.specs.Finish.{IsTaken};
ghost use Rattle.ent_protocol.specs.Job.{Job as Seen};
ghost use Rattle.ent_protocol.specs.Member.{is_single_of};

use crate::job::Job;
use crate::membership::goes_with;
use ent_group::{Members, Tx};

/// Whether a job of one statement of a transaction is among them.
pub fn is_lent(jobs: &[Job], tx: Tx) -> bool
    ensures { result ≡ list_any (is_single_of tx) jobs.now }
{
    jobs.iter().any(|job| job.is_single_of(tx))
}

/// The index of the first job that is the same as another.
pub(crate) fn place_of(jobs: &[Job], job: &Job) -> Option<usize>
    ensures some { IfSome result (λ index. slice_get jobs.now index ≡ Some job.now) }
    ensures none { IsNone result → Contains jobs.now job.now → ⊥ }
{
    for (index, own) in jobs.iter().enumerate() {
        if own.is_same(job) {
            return Some(index);
        }
    }
    None
}

/// Takes the job at an index out.
pub(crate) fn take(jobs: &mut Vec<Job>, index: usize)
    requires { index < length jobs.old.items }
    ensures { (job : Seen) → slice_get jobs.old.items index ≡ Some job → IsTaken job jobs.old.items jobs.new.items }
{
    drop(jobs.remove(index));
}

/// Takes the jobs out that go with the members of these numbers.
pub(crate) fn remove_with(jobs: &mut Vec<Job>, numbers: &Members)
    ensures { jobs.new.items ≡ filter (λ job. not (goes_with_any numbers.now job)) jobs.old.items }
{
    jobs.retain(|job| !goes_with(job, numbers));
}
