//! A walk over the values that may come next.
ghost use Rattle.std.specs.Prelude.{◌≡◌, ◌<◌, ◌++◌, [], ◌↔◌, List, IsTrue, MatchOption, length, is_some};
ghost use Rattle.std.specs.Prelude.{slice_index_or, if◌then◌else◌};
ghost use Rattle.std.specs.List.{AllByRecursion};
ghost use Rattle.ent_value.specs.declared.value.Value.{Value as Held};
ghost use Rattle.ent_semantics.specs.Term.{no_value};
ghost use Rattle.ent_join.specs.Cursor.{BeginsOtherwise, IsNext, PassesOver, column_values};
ghost use Rattle.ent_value.specs.Ticks.{ticked};

use ent_value::{Row, Ticks, Value};
use std::marker::Model;

/// A walk over the values of a column, each once where equal ones stand side by side. Contracts see the values that
/// are left.
#[derive(Drop)]
pub(crate) struct Cursor<'a> {
    rows: &'a [Row],
    column: usize,
}

impl<'a> Model for Cursor<'a> {
    ghost use Rattle.std.specs.Prelude.{List, length, ◌<◌};
    ghost use Rattle.std.specs.List.{AllByRecursion};
    ghost use Rattle.ent_value.specs.declared.value.Value.{Value as Held};
    ghost use Rattle.ent_join.specs.Cursor.{column_values};

    ghost Value = { List Held };

    ghost view = { λ c. column_values c.column c.rows.now };

    ghost invariant = { λ c. AllByRecursion (λ row. c.column < length row) c.rows.now };
}

impl<'a> Cursor<'a> {
    /// A walk over a column of some rows, which each of them has.
    pub(crate) fn new(rows: &'a [Row], column: usize) -> Self
        requires { AllByRecursion (λ row. column < length row) rows.now }
        ensures { result ≡ column_values column rows.now }
    {
        Cursor { rows, column }
    }

    /// The next value, or `None` after the last. It is one tick.
    pub(crate) fn next_value(&mut self, ticks: &mut Ticks) -> Option<&'a Value>
        ensures value { MatchOption result ((self.old ≡ []) × (self.new ≡ []))
            (λ value. IsNext self.old self.new value.now) }
        ensures ticks { ticks.new ≡ (if is_some result then ticked 1 ticks.old else ticks.old) }
    {
        if let [first, others @ ..] = self.rows {
            let first: &'a Row = first;
            let value = &first.values()[self.column];
            self.rows = rows_behind(others, self.column, value);
            ticks.add();
            return Some(value);
        }
        None
    }
}

/// The rows from the first on that has another value in a column.
fn rows_behind<'a>(rows: &'a [Row], column: usize, value: &Value) -> &'a [Row]
    requires { AllByRecursion (λ row. column < length row) rows.now }
    ensures has_column { AllByRecursion (λ row. column < length row) result.now }
    ensures passed { PassesOver column value.now rows.now result.now }
    ensures all { BeginsOtherwise column value.now result.now }
{
    let mut left = rows;
    while let [first, others @ ..] = left {
        if !has_value(first, column, value) {
            return left;
        }
        left = others;
    }
    left
}

/// Whether a row has a value in a column.
fn has_value(row: &Row, column: usize, value: &Value) -> bool
    requires { column < length row.now }
    ensures { IsTrue result ↔ (slice_index_or row.now column no_value ≡ value.now) }
{
    row.values()[column] == *value
}
