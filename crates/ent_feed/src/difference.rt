//! The net change of a table.
ghost use Rattle.std.specs.Prelude.{◌≡◌, ◌∷◌, [], ◌++◌, ◌<◌, All, IfOk, OnOk, MatchOption, drop, length};
ghost use Rattle.std.specs.Prelude.{option_copied, slice_get, take};
ghost use Rattle.std.specs.List.Sorted.{IsStrictlySortedBy};
ghost use Rattle.ent_lists.specs.Sets as set;
ghost use Rattle.ent_value.specs.Value.{kinds_of, row_cmp};
ghost use Rattle.ent_rel.specs.Change.{changed_rows};
ghost use Rattle.ent_feed.specs.NetChange.{net_change};
ghost use Rattle.ent_feed.specs.Walk.{next_step, rows_beside};

use ent_rel::{Delta, RowCursor, StoredRow, Table};
use ent_value::{Row, Sequence};
use std::alloc::{AllocError, Global};
use std::cmp::Ordering;
use std::marker::Model;

/// What is done with the first row that is left of either of two tables.
#[derive(Clone, Copy)]
enum Step {
    /// It stands in the first one alone.
    Removes,
    /// It stands in the second one alone.
    Adds,
    /// It stands in both.
    Keeps,
}

/// The rows of a table that are left, of which the first is looked at. Contracts see these rows.
struct Ahead<'a> {
    first: Option<StoredRow<'a>>,
    others: RowCursor<'a>,
}

impl Drop for Ahead<'_> {
    fn drop(self) {
        let Ahead {
            first: _first,
            others: _others,
        } = self;
    }
}

impl<'a> Model for Ahead<'a> {
    ghost use Rattle.std.specs.Prelude.{◌≡◌, ◌++◌, [], List, None, option_to_list};
    ghost use Rattle.ent_value.specs.declared.value.Value.{Value as Cell};

    ghost Value = { List (List Cell) };

    ghost view = { λ a. option_to_list a.first ++ a.others };

    ghost invariant = { λ a. a.first ≡ None → a.others ≡ [] };
}

impl<'a> Ahead<'a> {
    /// All rows of a table.
    fn of(table: &'a Table) -> Self
        ensures { result ≡ set.ascending table.now.rows }
    {
        let mut others = table.cursor();
        let first = others.next_row();
        Ahead { first, others }
    }

    /// The first row that is left.
    fn first(&self) -> Option<&StoredRow<'a>>
        ensures { option_copied result ≡ slice_get self.now 0 }
    {
        self.first.as_ref()
    }

    /// Takes the first row that is left.
    fn take(&mut self) -> Option<StoredRow<'a>>
        ensures { MatchOption result ((self.old ≡ []) × (self.new ≡ [])) (λ row. self.old ≡ row ∷ self.new) }
    {
        let first = self.first.take();
        self.first = self.others.next_row();
        first
    }
}

/// How two rows compare.
fn compare(left: &StoredRow<'_>, right: &StoredRow<'_>) -> Ordering
    ensures { result ≡ row_cmp left.now right.now }
{
    let shared = left.len().min(right.len());
    for index in 0..shared {
        match left.cell(index).cmp(&right.cell(index)) {
            Ordering::Equal => {}
            order => return order,
        }
    }
    left.len().cmp(&right.len())
}

/// What is to be done with the first row that is left of either table.
fn next(old: &Ahead<'_>, new: &Ahead<'_>) -> Option<Step>
    ensures { result ≡ next_step old.now new.now }
{
    match old.first() {
        None => match new.first() {
            None => None,
            Some(_) => Some(Step::Adds),
        },
        Some(gone) => match new.first() {
            None => Some(Step::Removes),
            Some(come) => match compare(gone, come) {
                Ordering::Less => Some(Step::Removes),
                Ordering::Equal => Some(Step::Keeps),
                Ordering::Greater => Some(Step::Adds),
            },
        },
    }
}

/// Puts the first row that is left, if there is one, behind others.
fn note(alloc: Global, rows: &mut Sequence<Row>, ahead: &mut Ahead<'_>) -> Result<(), AllocError>
    ensures rows { OnOk result (rows.new ≡ rows.old ++ take 1 ahead.old) }
    ensures left { ahead.new ≡ drop 1 ahead.old }
{
    if let Some(row) = ahead.take() {
        rows.push(row.to_row(alloc)?)?;
    }
    Ok(())
}

/// The rows that are left of one table alone, and those that are left of the other alone.
fn merge(alloc: Global, old: &mut Ahead<'_>, new: &mut Ahead<'_>) -> Result<Delta, AllocError>
    requires olds { IsStrictlySortedBy row_cmp old.old }
    requires news { IsStrictlySortedBy row_cmp new.old }
    ensures removed { IfOk result (λ delta. delta.removed ≡ rows_beside old.old new.old) }
    ensures added { IfOk result (λ delta. delta.added ≡ rows_beside new.old old.old) }
{
    let mut removed = Sequence::new(alloc);
    let mut added = Sequence::new(alloc);
    'steps: while let Some(step) = next(old, new) {
        match step {
            Step::Removes => note(alloc, &mut removed, old)?,
            Step::Adds => note(alloc, &mut added, new)?,
            Step::Keeps => {
                drop(old.take());
                drop(new.take());
            }
        }
    }
    Ok(Delta { removed, added })
}

/// The rows that stand in the first of two tables and not in the second, and those that stand in the second and not in
/// the first, both ascending: what takes the first one to the second.
pub fn net_change(alloc: Global, before: &Table, after: &Table) -> Result<Delta, AllocError>
    ensures exact { IfOk result (λ delta. delta ≡ net_change before.now.rows after.now.rows) }
    ensures applies { IfOk result (λ delta.
        changed_rows before.now.rows delta.removed delta.added ≡ after.now.rows) }
    ensures kinds { IfOk result (λ delta. All (λ row. kinds_of row ≡ after.now.kinds) delta.added) }
{
    // Asked for what it says of the rows.
    let _kinds = after.kinds();
    if before.is_same(after) {
        return Ok(Delta {
            removed: Sequence::new(alloc),
            added: Sequence::new(alloc),
        });
    }
    let mut old = Ahead::of(before);
    let mut new = Ahead::of(after);
    let delta = merge(alloc, &mut old, &mut new)?;
    Ok(delta)
}
