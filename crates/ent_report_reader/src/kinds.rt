//! Rows that are of the kinds of columns.
ghost use Rattle.std.specs.Prelude.{◌≡◌, ◌↔◌, IsTrue, map};
ghost use Rattle.ent_value.specs.Value.{kinds_of};

use ent_tree::Column;
use ent_value::{Kind, Value};

fn is_same(one: Kind, other: Kind) -> bool
    ensures { IsTrue result ↔ (one ≡ other) }
{
    one == other
}

/// Whether there is a value for each column, of its kind.
pub(crate) fn is_of_kinds(row: &[Value], columns: &[Column]) -> bool
    ensures { IsTrue result ↔ (kinds_of row.now ≡ map (λ column. column.kind) columns.now) }
{
    if row.len() != columns.len() {
        return false;
    }
    for index in 0..row.len() {
        if !is_same(row[index].kind(), columns[index].kind) {
            return false;
        }
    }
    true
}

/// Whether there is a value for each of these kinds, of it.
pub(crate) fn are_of_kinds(values: &[Value], kinds: &[Kind]) -> bool
    ensures { IsTrue result ↔ (kinds_of values.now ≡ kinds.now) }
{
    if values.len() != kinds.len() {
        return false;
    }
    for index in 0..values.len() {
        if !is_same(values[index].kind(), kinds[index]) {
            return false;
        }
    }
    true
}
