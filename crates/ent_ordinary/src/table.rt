//! Tables under their numbers.
ghost use Rattle.std.specs.Prelude.{◌≡◌, ◌<◌, IfOk, length, map, slice_index_or};
ghost use Rattle.std.specs.Arc.{arc_value};
ghost use Rattle.ent_ordinary.specs.Tables.{no_table};

use ent_rel::Table;
use std::alloc::AllocError;
use std::sync::Arc;

/// The table of a number, counted from 0. It is shared, and no row is copied.
pub fn table_at(tables: &[Arc<Table>], number: usize) -> Result<Arc<Table>, AllocError>
    requires { number < length tables.now }
    ensures { IfOk result (λ table. arc_value table ≡ slice_index_or (map arc_value tables.now) number no_table) }
{
    tables[number].clone()
}
