//! A core is opened.
ghost use Rattle.std.specs.Prelude.{◌≡◌};
ghost use Rattle.ent_value.specs.Refusal.{Gives};
ghost use Rattle.ent_form.specs.OpeningFault.{opening_fault, unless};
ghost use Rattle.ent_protocol.specs.Reached.{opened};

use crate::store::Store;
use ent_form::{Catalogue, FormFault};
use ent_job::LentJobs;
use ent_match::Pool;
use ent_members::TransactionTable;
use ent_run::Run;
use ent_tables::StoredTables;
use ent_tree::Opening;
use ent_value::Refusal;
use std::alloc::Global;

/// The store of an opening without a fault: its tables with their rows, no script, no run.
pub(crate) fn open(alloc: Global, opening: Opening) -> Result<Store, Refusal<FormFault>>
    ensures { Gives (λ store. store) result (unless (opening_fault opening) (opened opening)) }
{
    let catalogue = Catalogue::of(alloc, &opening)?;
    let tables = StoredTables::open(alloc, &catalogue, &opening)?;
    Ok(Store {
        alloc,
        opening,
        catalogue,
        submitted: Vec::new(alloc),
        transaction_table: TransactionTable::new(alloc),
        running: false,
        run: Run::new(alloc),
        pool: Pool::new(alloc),
        joints: Vec::new(alloc),
        settled: 0,
        tried: Vec::new(alloc),
        lent: LentJobs::new(alloc),
        tables,
        journal: Vec::new(alloc),
    })
}
