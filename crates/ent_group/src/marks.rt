//! Rows of up to 64 marks.
ghost use Rattle.std.specs.Prelude.{◌≡◌, ℕ, ◌<◌, ◌==◌, ◌||◌, length, map, slice_index};
ghost use Rattle.ent_group.specs.Marks.{has_mark, joined};

/// Up to 64 marks, each a bit.
pub type Row = u64;

/// Whether a row has a mark at a place.
pub fn has_mark(row: Row, at: usize) -> bool
    requires { at < 64 }
    ensures { result ≡ has_mark row at }
{
    row >> at & 1 == 1
}

/// A row with a mark at a place too.
pub fn with_mark(row: Row, at: usize) -> Row
    requires { at < 64 }
    ensures { (i : ℕ) → has_mark result i ≡ (i == at || has_mark row i) }
{
    row | 1 << at
}

/// A row that has a mark at a place, with those of another row too; or else the row as it is.
fn joined(row: Row, middle: usize, beyond: Row) -> Row
    requires { middle < 64 }
    ensures { result ≡ joined middle beyond row }
{
    if has_mark(row, middle) {
        row | beyond
    } else {
        row
    }
}

/// Adds to each row that has a mark at a place the marks of the row that stands there.
pub fn join_over(rows: &mut [Row], middle: usize)
    requires row { middle < length rows.old }
    requires within { middle < 64 }
    ensures { rows.new ≡ map (joined middle (slice_index rows.old middle)) rows.old }
{
    let beyond = rows[middle];
    for row in rows.iter_mut() {
        *row = joined(*row, middle, beyond);
    }
}
