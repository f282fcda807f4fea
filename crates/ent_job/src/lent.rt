//! The list of lent jobs.
ghost use Rattle.std.specs.Prelude.{◌≡◌, ◌<◌, ◌++◌, ◌∷◌, [], ◌==◌, List, Some, length, map, filter, not};
ghost use Rattle.std.specs.Prelude.{Contains, IfSome, IsNone, OnErr, OnOk, slice_get};
ghost use Rattle.std.specs.List.{list_any};
ghost use Rattle.ent_job.specs.Lent.{goes_with_any};
ghost use Rattle.ent_protocol.specs.Finish.{IsTaken};
ghost use Rattle.ent_protocol.specs.Job.{Job as Seen};
ghost use Rattle.ent_protocol.specs.Member.{is_lent, is_single_of};
ghost use Rattle.ent_protocol.specs.Rollback.{goes_with};
ghost use Rattle.ent_protocol.specs.State.{Member, State};

use crate::job::Job;
use crate::list;
use ent_group::{Members, Tx};
use std::alloc::{AllocError, Global};
use std::marker::Model;

/// The jobs that are lent, the newest last. Contracts see the list of them.
#[derive(Drop)]
pub struct LentJobs {
    jobs: Vec<Job>,
}

impl Model for LentJobs {
    ghost use Rattle.std.specs.Prelude.{List};
    ghost use Rattle.std.specs.Coded.{codes};
    ghost use Rattle.ent_rel.specs.Relation.{coded_rows};
    ghost use Rattle.ent_protocol.specs.Job.{Job as WorkWithTables};

    ghost Value = { List WorkWithTables };

    ghost coded = { Prim.hlevel (codes, coded_rows) };

    ghost view = { λ l. l.jobs.items };
}

impl LentJobs {
    /// No job. It takes no memory.
    pub fn new(alloc: Global) -> Self
        ensures { result ≡ [] }
    {
        LentJobs {
            jobs: Vec::new(alloc),
        }
    }

    /// The jobs, the newest last.
    pub fn as_slice(&self) -> &[Job]
        ensures { result.now ≡ self.now }
    {
        self.jobs.as_slice()
    }

    pub fn len(&self) -> usize
        ensures { result ≡ length self.now }
    {
        self.jobs.len()
    }

    pub fn is_empty(&self) -> bool
        ensures { result ≡ (length self.now == 0) }
    {
        self.jobs.is_empty()
    }

    /// A job is lent, the newest so far. Where memory runs out nothing changes.
    pub fn lend(&mut self, job: Job) -> Result<(), AllocError>
        ensures ok { OnOk result (self.new ≡ self.old ++ job ∷ []) }
        ensures err { OnErr result (self.new ≡ self.old) }
    {
        self.jobs.push(job)?;
        Ok(())
    }

    /// The newest job, where there is one, is lent no more. It takes no memory.
    pub fn take_back(&mut self)
        ensures newest { (jobs : List Seen) (job : Seen) → self.old ≡ jobs ++ job ∷ [] → self.new ≡ jobs }
        ensures same { self.old ≡ [] → self.new ≡ [] }
    {
        drop(self.jobs.pop());
    }

    /// Whether a job of one statement of a transaction is lent.
    pub fn is_lent(&self, tx: Tx) -> bool
        ensures value { result ≡ list_any (is_single_of tx) self.now }
        ensures state { (s : State) → s.lent ≡ self.now → result ≡ is_lent s tx }
    {
        list::is_lent(self.jobs.as_slice(), tx)
    }

    /// Where a job stands in the list, counted from 0; None where it isn't lent. Jobs are compared in everything,
    /// their tables row by row.
    pub fn find(&self, job: &Job) -> Option<usize>
        ensures within { IfSome result (λ index. index < length self.now) }
        ensures some { IfSome result (λ index. slice_get self.now index ≡ Some job.now) }
        ensures none { IsNone result → Contains self.now job.now → ⊥ }
        ensures not_taken { IsNone result → (left : List Seen) → IsTaken job.now self.now left → ⊥ }
    {
        list::place_of(self.jobs.as_slice(), job)
    }

    /// The job at an index, counted from 0, is lent no more. It takes no memory.
    pub fn take(&mut self, index: usize)
        requires { index < length self.old }
        ensures { (job : Seen) → slice_get self.old index ≡ Some job → IsTaken job self.old self.new }
    {
        list::take(&mut self.jobs, index);
    }

    /// The jobs that go with members who leave the run, by their numbers, are lent no more: jobs of their own
    /// statements, and every joint one. It takes no memory.
    pub fn remove_with(&mut self, numbers: &Members)
        ensures list { self.new ≡ filter (λ job. not (goes_with_any numbers.now job)) self.old }
        ensures gone { (gone : List Member) → numbers.now ≡ map (λ member. member.tx) gone
            → self.new ≡ filter (λ job. not (goes_with gone job)) self.old }
    {
        list::remove_with(&mut self.jobs, numbers);
    }

    /// No job is lent any more. It takes no memory.
    pub fn clear(&mut self)
        ensures { self.new ≡ [] }
    {
        self.jobs.clear();
    }
}
