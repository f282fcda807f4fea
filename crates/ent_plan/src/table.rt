//! The tables that the sub-selects of statements name.
ghost use Rattle.std.specs.Prelude.{◌≡◌, ◌++◌, IfOk, OnOk};
ghost use Rattle.ent_plan.specs.Tables.{sources_of, source_tables};

use ent_match::Posted;
use ent_semantics::Entangled;
use ent_value::Value;
use std::alloc::{AllocError, Global};

/// Puts down the tables that the sub-selects of a statement name.
fn push_sources(tables: &mut Vec<usize>, statement: &Entangled<Value>) -> Result<(), AllocError>
    ensures { OnOk result (tables.new.items ≡ tables.old.items ++ sources_of statement.now) }
{
    for membership in statement.atoms.as_slice() {
        tables.extend_from_slice(membership.select.sources.as_slice())?;
    }
    Ok(())
}

/// The tables that the sub-selects of the members name, by number and each once.
pub(crate) fn tables_of(alloc: Global, members: &[Posted]) -> Result<Vec<usize>, AllocError>
    ensures { IfOk result (λ tables. tables.items ≡ source_tables members.now) }
{
    let mut tables = Vec::new(alloc);
    for member in members {
        push_sources(&mut tables, member.statement())?;
    }
    tables.sort()?;
    tables.dedup();
    Ok(tables)
}
