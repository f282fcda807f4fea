//! Jobs.
ghost use Rattle.std.specs.Prelude.{◌≡◌, ◌↔◌, IfOk, IsTrue};
ghost use Rattle.ent_protocol.specs.Job as jobs;
ghost use Rattle.ent_protocol.specs.Member.{is_single_of};
ghost use Rattle.ent_job.specs.Work.{IsOne, IsJoint, IsWork, work_seen};

use crate::single::Single;
use crate::work::Work;
use ent_group::Tx;
use ent_match::Posted;
use ent_rel::NumberedTable;
use ent_tree::{Duplicate, Same};
use ent_value::Sequence;
use std::alloc::{AllocError, Global};
use std::marker::Model;

/// Work, and the tables that it uses as they stand. A statement that is to be carried out alone fits its tables; posted
/// statements are one component of the pool that they make, which is safe.
pub struct Job {
    work: Work,
    tables: Sequence<NumberedTable>,
}

impl Drop for Job {
    fn drop(self) {
        let Job {
            work: _work,
            tables: _tables,
        } = self;
    }
}

impl Model for Job {
    ghost use Rattle.std.specs.Coded.{codes};
    ghost use Rattle.ent_rel.specs.Relation.{coded_rows};
    ghost use Rattle.ent_protocol.specs.Job.{Job as WorkWithTables};

    ghost Value = { WorkWithTables };

    ghost coded = { Prim.hlevel (codes, coded_rows) };

    ghost use Rattle.ent_job.specs.Work.{IsWork, work_seen};

    ghost view = { λ j. record { work = work_seen j.work; tables = j.tables } };

    ghost invariant = { λ j. IsWork (work_seen j.work) j.tables };
}

impl Job {
    /// The job of a statement over the tables that it uses, in the order in which it names them.
    pub fn one(single: Single, tables: Sequence<NumberedTable>) -> Self
        requires { IsOne single tables }
        ensures { result ≡ record { work = jobs.One single; tables = tables } }
    {
        Job {
            work: Work::One(single),
            tables,
        }
    }

    /// The job of posted statements, by number of their transactions, over the tables that they use, by number.
    pub fn joint(asked: Sequence<Posted>, tables: Sequence<NumberedTable>) -> Self
        requires { IsJoint asked tables }
        ensures { result ≡ record { work = jobs.Joint asked; tables = tables } }
    {
        Job {
            work: Work::Joint(asked),
            tables,
        }
    }

    pub fn work(&self) -> &Work
        ensures work { work_seen result.now ≡ self.now.work }
        ensures fits { IsWork self.now.work self.now.tables }
    {
        &self.work
    }

    /// Whether it is of one statement of a transaction.
    pub fn is_single_of(&self, tx: Tx) -> bool
        ensures { result ≡ is_single_of tx self.now }
    {
        match self.work() {
            Work::One(single) => single.tx() == tx,
            Work::Joint(_) => false,
        }
    }

    pub fn tables(&self) -> &[NumberedTable]
        ensures { result.now ≡ self.now.tables }
    {
        self.tables.as_slice()
    }

    /// The same job: statements are copied, tables are shared.
    pub fn copy(&self, alloc: Global) -> Result<Self, AllocError>
        ensures { IfOk result (λ copy. copy ≡ self.now) }
    {
        let work = self.work.copy(alloc)?;
        let tables = self.tables.copy(alloc)?;
        Ok(Job { work, tables })
    }

    /// Whether the two are the same, tables row by row. It takes no memory.
    pub fn is_same(&self, other: &Job) -> bool
        ensures { IsTrue result ↔ (self.now ≡ other.now) }
    {
        self.work.is_same(&other.work) && self.tables.is_same(&other.tables)
    }
}
