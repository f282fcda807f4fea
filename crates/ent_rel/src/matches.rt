//! Rows of a walk that pass a test.
ghost use Rattle.std.specs.Prelude.{◌≡◌, Bool, List, IfOk, filter};
ghost use Rattle.ent_lists.specs.Sets as set;
ghost use Rattle.ent_value.specs.Value.{row_cmp};
ghost use Rattle.ent_value.specs.declared.value.Value.{Value as Cell};
ghost use Rattle.ent_rel.specs.Closure.{Computes};
ghost use Rattle.ent_rel.specs.Part.{IsPart};

use crate::row_cursor::RowCursor;
use ent_page::StoredRow;
use ent_value::Row;
use std::alloc::{AllocError, Global};

/// The rows of a walk that pass a test. Whatever the test does, they are a part of the walk.
pub(crate) fn matches<F: Fn(&StoredRow<'_>) -> bool>(
    alloc: Global,
    cursor: RowCursor<'_>,
    test: F,
) -> Result<Vec<Row>, AllocError>
    requires { F.IsAlwaysCallable test }
    ensures passing { (passes : List Cell → Bool)
        → Computes F.Fn test (set.from_list {R = row_cmp} cursor.entry) passes
        → IfOk result (λ found. found.items ≡ filter passes cursor.entry) }
    ensures part { IfOk result (λ found. IsPart cursor.entry found.items) }
{
    let mut cursor = cursor;
    let mut found = Vec::new(alloc);
    while let Some(row) = cursor.next_row() {
        if test(&row) {
            found.push(row.to_row(alloc)?)?;
        }
    }
    Ok(found)
}
