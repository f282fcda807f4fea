//! Changes of tables under their numbers.
ghost use Rattle.std.specs.Prelude.{◌≡◌, ◌<◌, IfOk, length, map, slice_index_or};
ghost use Rattle.std.specs.Arc.{arc_value};
ghost use Rattle.ent_rel.specs.Change.{changed_rows};
ghost use Rattle.ent_ordinary.specs.Tables.{no_table};
ghost use Rattle.ent_ordinary.specs.Change.{IsApplicable};

use ent_rel::{Delta, Table, TableFull};
use ent_value::Refusal;
use std::alloc::{AllocError, Global};
use std::sync::Arc;

/// What a change that can be applied makes of the table of a number, counted from 0. The tables stay as they are.
pub fn table_changed(
    alloc: Global,
    tables: &[Arc<Table>],
    number: usize,
    delta: &Delta,
) -> Result<Arc<Table>, AllocError>
    requires within { number < length tables.now }
    requires applicable { IsApplicable (slice_index_or (map arc_value tables.now) number no_table) delta.now }
    ensures rows { let before = slice_index_or (map arc_value tables.now) number no_table in
        IfOk result (λ table. (arc_value table).rows ≡ changed_rows before.rows delta.now.removed delta.now.added) }
    ensures kinds { let before = slice_index_or (map arc_value tables.now) number no_table in
        IfOk result (λ table. (arc_value table).kinds ≡ before.kinds) }
{
    match tables[number].apply(alloc, delta) {
        Ok(table) => Ok(Arc::new(alloc, table)?),
        Err(Refusal::Memory) => Err(AllocError),
        // The change fits.
        Err(Refusal::Fault(TableFull)) => unreachable!(),
    }
}
