//! The stamps of the jobs that a core lends.
ghost use Rattle.std.specs.Prelude.{◌≡◌, ◌<◌, ◌+◌, ◌++◌, ◌∷◌, [], not, filter, List, IfSome, Some, length, slice_get};
ghost use Rattle.std.specs.List.{remove};
ghost use Rattle.ent_stamp.specs.Stamps.{AreStampsBehind, IsLentStampOf, IsStampOf, goes_along, jobs_left_by, owner_of};
ghost use Rattle.ent_protocol.specs.Job.{Job as Seen};

use crate::naming::Naming;
use crate::stamp::{BlankLog, Stamp, StampGiver};
use crate::stamped::StampedJob;
use ent_eval::{Job, Work};
use ent_group::{Members, Tx};
use std::alloc::Global;
use std::marker::Model;

/// The stamp of a lent job, with the member whose statement it does; with none where the job is joint. Contracts see
/// both.
#[derive(Drop)]
struct LentStamp<L: Naming> {
    stamp: Stamp<L>,
    owner: Option<Tx>,
}

impl<L: Naming> Model for LentStamp<L> {
    ghost use Rattle.std.specs.Coded.{codes};
    ghost use Rattle.ent_rel.specs.Relation.{coded_rows};
    ghost use Rattle.ent_stamp.specs.Stamps.{LentStamp};

    ghost Value = { LentStamp };

    ghost coded = { Prim.hlevel (codes, coded_rows) };

    ghost view = { λ m. (m.stamp, m.owner) };
}

/// The stamps of the jobs that a core lends, but for so many of them, the oldest. The newest is last.
#[derive(Drop)]
pub struct LentStamps<L: Naming> {
    giver: StampGiver<L>,
    older: usize,
    stamps: Vec<LentStamp<L>>,
}

/// Whose statement a job does; None where it is joint.
fn owner_of(job: &Job) -> Option<Tx>
    ensures { result ≡ owner_of job.now.work }
{
    match job.work() {
        Work::One(single) => Some(single.tx()),
        Work::Joint(_) => None,
    }
}

/// Whether a job goes with the members of these numbers: one of their own statements, or any joint one.
fn goes_along<L: Naming>(lent: &LentStamp<L>, gone: &Members) -> bool
    ensures { result ≡ goes_along gone.now lent.now.1 }
{
    match lent.owner {
        Some(tx) => gone.contains(tx),
        None => true,
    }
}

/// The stamps of jobs that go with the members of these numbers are dropped.
fn drop_gone<L: Naming>(stamps: &mut Vec<LentStamp<L>>, gone: &Members)
    ensures { stamps.new.items ≡ filter (λ lent. not (goes_along gone.now lent.1)) stamps.old.items }
{
    stamps.retain(|lent| !goes_along(lent, gone));
}

impl<L: Naming> LentStamps<L> {
    /// No stamp, of no job, for the manager that is named by this log.
    pub fn new(alloc: Global, jobs: BlankLog) -> Self
        requires { jobs ≡ L.Scripts.book }
        ensures { (result.older ≡ 0) × (result.stamps.items ≡ []) }
    {
        LentStamps {
            giver: jobs.open(),
            older: 0,
            stamps: Vec::new(alloc),
        }
    }

    /// A job more is lent, the newest, with a stamp; now they are so many. Where memory runs out no stamp is kept.
    fn add(&mut self, lent: LentStamp<L>, count: usize)
        ensures { (jobs : List Seen) (job : Seen) → length (jobs ++ job ∷ []) ≡ count → IsLentStampOf lent job
            → AreStampsBehind self.old.older self.old.stamps.items jobs
            → AreStampsBehind self.new.older self.new.stamps.items (jobs ++ job ∷ []) }
    {
        match self.stamps.push(lent) {
            Ok(()) => {}
            Err(_full) => self.forget(count),
        }
    }

    /// A job more is lent, the newest, and gets a stamp; now they are so many.
    pub fn lend(&mut self, job: Job, count: usize) -> StampedJob<L>
        ensures same { result ≡ job }
        ensures known { (jobs : List Seen) → length (jobs ++ job ∷ []) ≡ count
            → AreStampsBehind self.old.older self.old.stamps.items jobs
            → AreStampsBehind self.new.older self.new.stamps.items (jobs ++ job ∷ []) }
    {
        let stamp = Stamp::new(&self.giver, &job);
        let lent = LentStamp {
            stamp: stamp.again(),
            owner: owner_of(&job),
        };
        self.add(lent, count);
        StampedJob::new(job, stamp)
    }

    /// The job at an index is lent no more.
    pub fn take(&mut self, index: usize)
        requires { index < self.old.older + length self.old.stamps.items }
        ensures { (jobs : List Seen) → AreStampsBehind self.old.older self.old.stamps.items jobs
            → AreStampsBehind self.new.older self.new.stamps.items (remove jobs index) }
    {
        if index < self.older {
            self.older -= 1;
        } else {
            drop(self.stamps.remove(index - self.older));
        }
    }

    /// The members of these numbers went, and the jobs that go with them are lent no more; now they are so many.
    pub fn leave(&mut self, gone: &Members, count: usize)
        ensures { (jobs : List Seen) → length (jobs_left_by gone.now jobs) ≡ count
            → AreStampsBehind self.old.older self.old.stamps.items jobs
            → AreStampsBehind self.new.older self.new.stamps.items (jobs_left_by gone.now jobs) }
    {
        drop_gone(&mut self.stamps, gone);
        self.older = count.saturating_sub(self.stamps.as_slice().len());
    }

    /// So many jobs are lent, and none of their stamps is kept.
    pub fn forget(&mut self, count: usize)
        ensures { (jobs : List Seen) → length jobs ≡ count
            → AreStampsBehind self.new.older self.new.stamps.items jobs }
    {
        self.stamps.truncate(0);
        self.older = count;
    }

    /// The index of the job that has a stamp, where it is kept.
    pub fn index_of(&self, stamp: &Stamp<L>) -> Option<usize>
        ensures { IfSome result (λ index. (jobs : List Seen) (job : Seen) → IsStampOf stamp.now job
            → AreStampsBehind self.now.older self.now.stamps.items jobs
            → slice_get jobs index ≡ Some job) }
    {
        for (place, lent) in self.stamps.iter().enumerate() {
            if lent.stamp.is_same(stamp) {
                return self.older.checked_add(place);
            }
        }
        None
    }
}
