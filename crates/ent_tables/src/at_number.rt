//! Tables under their numbers.
ghost use Rattle.std.specs.Prelude.{◌≡◌, ◌<◌, IfOk, length, map};
ghost use Rattle.std.specs.Arc.{arc_value};
ghost use Rattle.std.specs.List.{AllByRecursion};
ghost use Rattle.ent_tables.specs.AtNumber.{seen_at, seen_in};

use ent_members::Use;
use ent_ordinary::table_at;
use ent_rel::{NumberedTable, Table};
use ent_value::Sequence;
use std::alloc::{AllocError, Global};
use std::sync::Arc;

/// The table of a number, as work sees it.
fn table_seen(tables: &[Arc<Table>], number: usize) -> Result<NumberedTable, AllocError>
    requires { number < length tables.now }
    ensures { IfOk result (λ seen. seen ≡ seen_at (map arc_value tables.now) number) }
{
    let table = table_at(tables, number)?;
    Ok(NumberedTable::new(number, table))
}

/// The tables of some uses, in their order. No row is copied.
pub(crate) fn tables_seen(
    alloc: Global,
    tables: &[Arc<Table>],
    uses: &[Use],
) -> Result<Sequence<NumberedTable>, AllocError>
    requires { AllByRecursion (λ own. own.table < length tables.now) uses.now }
    ensures { IfOk result (λ seen. seen ≡ seen_in (map arc_value tables.now) uses.now) }
{
    let mut seen = Vec::with_capacity(alloc, uses.len())?;
    for own in uses {
        seen.push(table_seen(tables, own.table())?)?;
    }
    Ok(Sequence::from_vec(seen))
}
