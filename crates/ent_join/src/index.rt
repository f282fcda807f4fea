//! Indexes of the results of sub-selects, by classes of variables.
ghost use Rattle.std.specs.Prelude.{◌≡◌, ◌<◌, ◌≤◌, true, false, length, IfOk, IfSome};
ghost use Rattle.std.specs.List.{AllByRecursion, filter};
ghost use Rattle.std.specs.List.Sorted.{IsPartitionPoint, IsStrictlySortedBy};
ghost use Rattle.std.specs.Ordering.{is_le, is_lt};
ghost use Rattle.ent_value.specs.Value.{row_cmp};
ghost use Rattle.ent_match.specs.Links.{IsMarked};
ghost use Rattle.ent_join.specs.Domain.{is_alone, may_have};
ghost use Rattle.ent_join.specs.Cursor.{column_values};
ghost use Rattle.ent_join.specs.Index.{IsIndexed, begun_cmp, begins_so, column_of, goes_on, rows_after};
ghost use Rattle.ent_join.specs.Reason.{AreMarkedIn};

use crate::cursor::Cursor;
use crate::reason::mark_each;
use ent_tree::Duplicate;
use ent_value::{Row, Sequence, Value};
use std::alloc::{AllocError, Global};
use std::cmp::Ordering;
use std::marker::Model;
use std::sync::Arc;

/// Rows with a value for each of some classes, in order. The classes ascend. Copies share the rows.
#[derive(Drop)]
pub(crate) struct Index {
    classes: Sequence<usize>,
    rows: Arc<Sequence<Row>>,
}

impl Model for Index {
    ghost use Rattle.std.specs.Arc.{arc_value};
    ghost use Rattle.ent_join.specs.Index.{Indexed, IsIndexed};

    ghost Value = { Indexed };

    ghost view = { λ i. record { classes = i.classes; rows = arc_value i.rows } };

    ghost invariant = { λ i. IsIndexed (record { classes = i.classes; rows = arc_value i.rows }) };
}

impl Index {
    /// The index of classes and rows that are in order.
    pub(crate) fn new(
        alloc: Global,
        classes: Sequence<usize>,
        rows: Sequence<Row>,
    ) -> Result<Index, AllocError>
        requires { IsIndexed (record { classes = classes; rows = rows }) }
        ensures { IfOk result (λ index. index ≡ record { classes = classes; rows = rows }) }
    {
        let rows = Arc::new(alloc, rows)?;
        Ok(Index { classes, rows })
    }

    /// The same index. The rows are shared, not copied.
    pub(crate) fn shared(&self, alloc: Global) -> Result<Index, AllocError>
        ensures { IfOk result (λ shared. shared ≡ self.now) }
    {
        let classes = self.classes.copy(alloc)?;
        let rows = self.rows.clone()?;
        Ok(Index { classes, rows })
    }

    /// The column of a class, where the index has it.
    pub(crate) fn column_of(&self, class: usize) -> Option<usize>
        ensures column { result ≡ column_of class self.now.classes }
        ensures within { IfSome result (λ column. column < length self.now.classes) }
    {
        column_of(class, self.classes.as_slice())
    }

    /// A walk over the values of a column in the rows with the values that their classes have in a beginning.
    pub(crate) fn walk(&self, beginning: &[Value], column: usize) -> Cursor<'_>
        requires { column < length self.now.classes }
        ensures { result ≡ column_values column (rows_after beginning.now self.now) }
    {
        Cursor::new(self.rows_after(beginning), column)
    }

    /// Whether there is a row with the values that its classes have in a beginning.
    pub(crate) fn goes_on(&self, beginning: &[Value]) -> bool
        ensures { result ≡ goes_on beginning.now self.now }
    {
        !self.rows_after(beginning).is_empty()
    }

    /// Whether the index has a class and no other.
    pub(crate) fn is_alone(&self, class: usize) -> bool
        ensures { result ≡ is_alone class self.now.classes }
    {
        match self.classes.as_slice() {
            [only] => *only == class,
            _ => false,
        }
    }

    /// Whether the index has the value of a key of one value, where it has a class and no other.
    pub(crate) fn may_have(&self, class: usize, key: &[Value]) -> bool
        ensures { result ≡ may_have class key.now self.now }
    {
        if self.is_alone(class) {
            return !rows_between(key, &[0], self.rows.as_slice()).is_empty();
        }
        true
    }

    /// The rows.
    pub(crate) fn rows(&self) -> &[Row]
        ensures { result.now ≡ self.now.rows }
    {
        self.rows.as_slice()
    }

    /// Marks the classes of the index.
    pub(crate) fn mark_classes(&self, marks: &mut [bool])
        ensures kept { AreMarkedIn marks.old marks.new }
        ensures marked { AllByRecursion (λ class. class < length marks.old → IsMarked marks.new class)
            self.now.classes }
    {
        mark_each(marks, self.classes.as_slice());
    }

    /// The rows with the values that their classes have in a beginning.
    pub(crate) fn rows_after(&self, beginning: &[Value]) -> &[Row]
        ensures rows { result.now ≡ rows_after beginning.now self.now }
        ensures widths { AllByRecursion (λ row. length row ≡ length self.now.classes) result.now }
    {
        rows_between(beginning, self.classes.as_slice(), self.rows.as_slice())
    }
}

fn column_of(class: usize, classes: &[usize]) -> Option<usize>
    ensures column { result ≡ column_of class classes.now }
    ensures within { IfSome result (λ column. column < length classes.now) }
{
    for (column, other) in classes.iter().enumerate() {
        if *other == class {
            return Some(column);
        }
    }
    None
}

/// How a row compares with the values that its classes have in a beginning.
fn begun_cmp(beginning: &[Value], classes: &[usize], row: &[Value]) -> Ordering
    ensures { result ≡ begun_cmp beginning.now classes.now row.now }
{
    if let [class, classes @ ..] = classes {
        if let [value, row @ ..] = row {
            return match beginning.get(*class) {
                None => Ordering::Equal,
                Some(known) => value.cmp(known).then(begun_cmp(beginning, classes, row)),
            };
        }
    }
    Ordering::Equal
}

/// How many rows come before those that begin so.
fn count_before(beginning: &[Value], classes: &[usize], rows: &[Row]) -> usize
    requires sorted { IsStrictlySortedBy row_cmp rows.now }
    requires widths { AllByRecursion (λ row. length row ≡ length classes.now) rows.now }
    ensures within { result ≤ length rows.now }
    ensures point { IsPartitionPoint (λ row. is_lt (begun_cmp beginning.now classes.now row) ≡ true)
        (λ row. is_lt (begun_cmp beginning.now classes.now row) ≡ false) rows.now result }
{
    rows.partition_point(|row| begun_cmp(beginning, classes, row.values()).is_lt())
}

/// How many rows come before those behind the ones that begin so.
fn count_up_to(beginning: &[Value], classes: &[usize], rows: &[Row]) -> usize
    requires sorted { IsStrictlySortedBy row_cmp rows.now }
    requires widths { AllByRecursion (λ row. length row ≡ length classes.now) rows.now }
    ensures within { result ≤ length rows.now }
    ensures point { IsPartitionPoint (λ row. is_le (begun_cmp beginning.now classes.now row) ≡ true)
        (λ row. is_le (begun_cmp beginning.now classes.now row) ≡ false) rows.now result }
{
    rows.partition_point(|row| begun_cmp(beginning, classes, row.values()).is_le())
}

/// The rows that begin so, which lie side by side.
fn rows_between<'a>(beginning: &[Value], classes: &[usize], rows: &'a [Row]) -> &'a [Row]
    requires sorted { IsStrictlySortedBy row_cmp rows.now }
    requires widths { AllByRecursion (λ row. length row ≡ length classes.now) rows.now }
    ensures { result.now ≡ filter (begins_so beginning.now classes.now) rows.now }
{
    let start = count_before(beginning, classes, rows);
    let end = count_up_to(beginning, classes, rows);
    &rows[start..end]
}
