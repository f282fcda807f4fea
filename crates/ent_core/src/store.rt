//! What a core holds.
ghost use Rattle.std.specs.List.{AllByRecursion};
ghost use Rattle.ent_protocol_laws.specs.Attempts.{AsksForRun};

use ent_form::Catalogue;
use ent_job::LentJobs;
use ent_match::{Pool, Posted};
use ent_members::{SubmittedScript, TransactionTable};
use ent_run::Run;
use ent_semantics::{Entry, JointAnswer};
use ent_tables::StoredTables;
use ent_tree::Opening;
use ent_value::Sequence;
use std::alloc::Global;
use std::marker::Model;

/// The parts of a core. Contracts see the protocol's state.
#[derive(Drop)]
pub(crate) struct Store {
    pub(crate) alloc: Global,
    pub(crate) opening: Opening,
    pub(crate) catalogue: Catalogue,
    pub(crate) submitted: Vec<SubmittedScript>,
    /// Who waits for a run, in order of arrival, and who is finished.
    pub(crate) transaction_table: TransactionTable,
    pub(crate) running: bool,
    pub(crate) run: Run,
    /// What members posted, by number.
    pub(crate) pool: Pool,
    pub(crate) joints: Vec<JointAnswer>,
    /// How many joint answers were made before the present run began. Each of their members has a fate, so no rollback
    /// concerns them.
    pub(crate) settled: usize,
    pub(crate) tried: Vec<Sequence<Posted>>,
    pub(crate) lent: LentJobs,
    pub(crate) tables: StoredTables,
    pub(crate) journal: Vec<Entry>,
}

impl Model for Store {
    ghost use Rattle.std.specs.Coded.{codes};
    ghost use Rattle.ent_rel.specs.Relation.{coded_rows};
    ghost use Rattle.ent_protocol.specs.State.{State};
    ghost use Rattle.ent_core.specs.Settled.{AreSettled};
    ghost use Rattle.ent_core.specs.Store.{IsKept};

    ghost Value = { State };

    ghost coded = { Prim.hlevel (codes, coded_rows) };

    ghost view = { λ s. record {
      opening = s.opening;
      submitted = s.submitted.items;
      dormant = s.transaction_table.dormant;
      running = s.running;
      prepared = s.run.prepared;
      active = s.run.active;
      joints = s.joints.items;
      tried = s.tried.items;
      lent = s.lent;
      tables = s.tables.tables;
      changes = s.tables.changes;
      journal = s.journal.items;
      fates = s.transaction_table.fates;
    } };

    ghost invariant = { λ s.
        IsKept s.catalogue.tables s.opening s.submitted.items s.transaction_table s.running s.run s.tables s.pool
        × AreSettled s.settled s.joints.items s.transaction_table.fates };
}

impl Store {
    /// A law, which does nothing: each script asks for one run at least.
    pub(crate) fn asks_for_runs(&self)
        ensures { AllByRecursion AsksForRun self.now.submitted }
    {
        let _submitted = &self.submitted;
    }
}
