//! Sets of rows.
ghost use Rattle.std.specs.Prelude.{◌≡◌, IfOk, IsTrue};
ghost use Rattle.std.specs.List.Sorted.{IsStrictlySortedBy};
ghost use Rattle.ent_lists.specs.Sets as set;
ghost use Rattle.ent_value.specs.Value.{row_cmp};

use ent_value::Row;
use std::alloc::AllocError;

/// Whether each row is less than the next.
fn ascend(rows: &[Row]) -> bool
    ensures { IsTrue result → IsStrictlySortedBy row_cmp rows.now }
{
    for index in 1..rows.len() {
        if rows[index - 1] >= rows[index] {
            return false;
        }
    }
    true
}

/// The set of some rows: ascending, as [`Row`] compares, each row once. The rows are moved, and none is copied. Rows
/// that ascend already are gone over once.
pub fn ascending(mut rows: Vec<Row>) -> Result<Vec<Row>, AllocError>
    ensures { IfOk result (λ sorted. sorted.items ≡ set.ascending (set.from_list {R = row_cmp} rows.items)) }
{
    if ascend(rows.as_slice()) {
        return Ok(rows);
    }
    rows.sort()?;
    rows.dedup();
    Ok(rows)
}
