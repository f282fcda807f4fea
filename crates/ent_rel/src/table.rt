//! A table over the keys of its rows in pages.
ghost use Rattle.std.specs.Prelude.{◌≡◌, ◌≤◌, ◌==◌, Bool, List, Result, Ok, IfOk, IfErr, IsOk, IsTrue, ◌↔◌, All};
ghost use Rattle.std.specs.Prelude.{length, take, filter, ◌&&◌};
ghost use Rattle.ent_lists.specs.Sets as set;
ghost use Rattle.ent_value.specs.Refusal.{Gives, Refuses};
ghost use Rattle.ent_value.specs.Value.{row_cmp, kinds_of};
ghost use Rattle.ent_value.specs.declared.value.Value.{Value as Cell};
ghost use Rattle.ent_rel.specs.Relation.{HaveKinds, bounded};
ghost use Rattle.ent_rel.specs.Change.{changed_rows, insertion, deletion, replacement, application};
ghost use Rattle.ent_rel.specs.Closure.{Answers, Changes, Computes, GivesUnless, KeepsKinds};
ghost use Rattle.ent_rel.specs.First.{has_first};
ghost use Rattle.ent_rel.specs.Part.{IsPart};

use crate::change::Delta;
use crate::copies::{copies_where, flattened, images};
use crate::fault::{LoadRefused, TableFull};
use crate::keys::{keys_changed, keys_loaded};
use crate::kinds::{are_same_kinds, have_kinds};
use crate::matches::matches;
use crate::row_cursor::RowCursor;
use ent_page::{Key, KeySet, StoredRow, first_values_are_fronts};
use ent_value::{Kind, MOST_ROWS, Refusal, Row, Sequence, Value};
use std::alloc::{AllocError, Global};
use std::marker::Model;

/// A finite set of at most [`MOST_ROWS`] rows, each of the table's kinds. Contracts see the kinds and the set.
///
/// A table keeps its rows as keys in an ordered list of pages. Tables that come from one another share the pages that
/// are the same in both.
pub struct Table {
    kinds: Vec<Kind>,
    keys: KeySet,
}

impl Drop for Table {
    fn drop(self) {
        let Table {
            kinds: _kinds,
            keys: _keys,
        } = self;
    }
}

impl Model for Table {
    ghost use Rattle.ent_rel.specs.Relation.{Relation, coded_relation};
    ghost use Rattle.ent_rel.specs.Kept.{rows_of, IsKept};

    ghost Value = { Relation };

    ghost coded = { coded_relation };

    ghost view = { λ t. record { kinds = t.kinds.items; rows = rows_of t.kinds.items t.keys } };

    ghost invariant = { λ t. IsKept t.kinds.items t.keys };
}

impl Table {
    /// The table of no row. It takes no memory.
    pub fn new(alloc: Global, kinds: Vec<Kind>) -> Self
        ensures { result ≡ record { kinds = kinds.items; rows = set.empty } }
    {
        let keys = KeySet::new(alloc);
        Table { kinds, keys }
    }

    /// The table of these rows, of which doubles count once. `TableFull` where more than [`MOST_ROWS`] are distinct;
    /// rows that make no table come back.
    pub fn load(alloc: Global, kinds: Vec<Kind>, rows: Vec<Row>) -> Result<Self, LoadRefused>
        requires { All (λ row. kinds_of row ≡ kinds.items) rows.items }
        ensures table { let all = set.from_list {R = row_cmp} rows.items in
            IfOk result (λ table. bounded all record { kinds = kinds.items; rows = all } ≡ Ok table) }
        ensures fault { let all = set.from_list {R = row_cmp} rows.items in
            IfErr result (λ refused. Refuses refused.refusal (bounded all all)) }
        ensures returned { IfErr result (λ refused. refused.rows.items ≡ rows.items) }
    {
        match keys_loaded(alloc, &kinds, rows.as_slice()) {
            Ok(keys) => Ok(Table { kinds, keys }),
            Err(refusal) => Err(LoadRefused { rows, refusal }),
        }
    }

    /// The kinds of the columns, which each row has.
    pub fn kinds(&self) -> &[Kind]
        ensures kinds { result.now ≡ self.now.kinds }
        ensures rows { HaveKinds self.now.kinds self.now.rows }
    {
        &self.kinds
    }

    /// How many rows there are.
    pub fn len(&self) -> usize
        ensures len { result ≡ set.len self.now.rows }
        ensures limit { result ≤ MOST_ROWS }
    {
        self.keys.len()
    }

    pub fn is_empty(&self) -> bool
        ensures { result ≡ (set.len self.now.rows == 0) }
    {
        self.keys.is_empty()
    }

    /// Whether a row is in the table. It takes no memory.
    pub fn contains(&self, row: &Row) -> bool
        ensures { result ≡ set.contains self.now.rows row.now }
    {
        have_kinds(row.values(), &self.kinds) && self.keys.contains(row)
    }

    /// A walk over the rows in ascending order. It takes no memory.
    pub fn cursor(&self) -> RowCursor<'_>
        ensures { result ≡ set.ascending self.now.rows }
    {
        RowCursor::new(&self.kinds, self.keys.cursor())
    }

    /// A walk over the rows whose first values are these, ascending. The first of them is found by halving.
    pub fn look_up(&self, alloc: Global, values: &[Value]) -> Result<RowCursor<'_>, AllocError>
        requires { kinds_of values.now ≡ take (length values.now) self.now.kinds }
        ensures { IfOk result (λ found. found ≡ filter (has_first values.now) (set.ascending self.now.rows)) }
    {
        // A law: these rows are those whose keys begin with the key of the values.
        first_values_are_fronts();
        let front = Key::of(alloc, values)?;
        Ok(RowCursor::new(&self.kinds, self.keys.beginning_with(front)))
    }

    /// The rows in ascending order.
    pub fn rows(&self, alloc: Global) -> Result<Vec<Row>, AllocError>
        ensures rows { IfOk result (λ rows. rows.items ≡ set.ascending self.now.rows) }
        ensures limit { IfOk result (λ rows. length rows.items ≤ MOST_ROWS) }
    {
        let mut rows = Vec::with_capacity(alloc, self.len())?;
        let mut cursor = self.cursor();
        while let Some(row) = cursor.next_row() {
            rows.push(row.to_row(alloc)?)?;
        }
        Ok(rows)
    }

    /// What putting a row in would change: no row where it is there. The change fits: `apply` never
    /// answers `TableFull` for it.
    pub fn insert(&self, alloc: Global, row: &Row) -> Result<(u64, Delta), Refusal<TableFull>>
        requires { kinds_of row.now ≡ self.now.kinds }
        ensures change { Gives
            (λ r. (r.0, changed_rows self.now.rows r.1.removed r.1.added))
            result (insertion self.now.rows row.now) }
        ensures kinds { IfOk result (λ r. All (λ row. kinds_of row ≡ self.now.kinds) r.1.added) }
        ensures fits { IfOk result (λ r. IsOk (application self.now.rows r.1.removed r.1.added)) }
    {
        let mut added = Sequence::new(alloc);
        let len = self.len();
        if self.contains(row) {
            return Ok((
                0,
                Delta {
                    removed: Sequence::new(alloc),
                    added,
                },
            ));
        }
        if len >= MOST_ROWS {
            return Err(Refusal::Fault(TableFull));
        }
        added.push(row.copy(alloc)?)?;
        Ok((
            1,
            Delta {
                removed: Sequence::new(alloc),
                added,
            },
        ))
    }

    /// What taking out the rows that pass a test would change. The change fits.
    pub fn delete_rows<F: Fn(&Row) -> bool>(
        &self,
        alloc: Global,
        test: F,
    ) -> Result<(u64, Delta), AllocError>
        requires { F.IsAlwaysCallable test }
        ensures change { (passes : List Cell → Bool) → Computes F.Fn test self.now.rows passes
            → IfOk result (λ r.
            (r.0, changed_rows self.now.rows r.1.removed r.1.added) ≡ deletion self.now.rows passes) }
        ensures kinds { IfOk result (λ r. All (λ row. kinds_of row ≡ self.now.kinds) r.1.added) }
        ensures fits { IfOk result (λ r. IsOk (application self.now.rows r.1.removed r.1.added)) }
    {
        let rows = self.rows(alloc)?;
        let removed = copies_where(alloc, rows.as_slice(), test)?;
        Ok((
            removed.len() as u64,
            Delta {
                removed: Sequence::from_vec(removed),
                added: Sequence::new(alloc),
            },
        ))
    }

    /// The change that replaces each row that passes a test by its image, or the closure's error on the first row, in
    /// ascending order, that passes and has no image. There are no more rows then than before, so the change fits. An
    /// error that the closure excuses, as one that tells of memory, may come on any row that passes.
    pub fn replace<E: Drop, F: Fn(&Row) -> bool, G: Fn(&Row) -> Result<Row, E>>(
        &self,
        alloc: Global,
        test: F,
        change: G,
    ) -> Result<(u64, Delta), Refusal<E>>
        requires test { F.IsAlwaysCallable test }
        requires change { G.IsAlwaysCallable change }
        requires kinds { KeepsKinds G.Fn change self.now.rows self.now.kinds }
        ensures change { (passes : List Cell → Bool) (excused : E → Bool)
            (image : List Cell → Result (List Cell) E)
            → Computes F.Fn test self.now.rows passes
            → Answers G.Fn change self.now.rows excused image
            → GivesUnless excused (λ r. (r.0, changed_rows self.now.rows r.1.removed r.1.added))
            result (replacement self.now.rows passes image) }
        ensures kinds { IfOk result (λ r. All (λ row. kinds_of row ≡ self.now.kinds) r.1.added) }
        ensures fits { IfOk result (λ r. IsOk (application self.now.rows r.1.removed r.1.added)) }
    {
        let rows = self.rows(alloc)?;
        let removed = copies_where(alloc, rows.as_slice(), test)?;
        let added = images(alloc, removed.as_slice(), change)?;
        let count = removed.len() as u64;
        Ok((
            count,
            Delta {
                removed: Sequence::from_vec(removed),
                added: Sequence::from_vec(added),
            },
        ))
    }

    /// Of the rows with these first values those that pass a test.
    fn matches<F: Fn(&StoredRow<'_>) -> bool>(
        &self,
        alloc: Global,
        values: &[Value],
        test: F,
    ) -> Result<Vec<Row>, AllocError>
        requires test { F.IsAlwaysCallable test }
        requires first { kinds_of values.now ≡ take (length values.now) self.now.kinds }
        ensures passing { (passes : List Cell → Bool) → Computes F.Fn test self.now.rows passes
            → let matches : List Cell → Bool = λ row. has_first values.now row && passes row in
            IfOk result (λ found. found.items ≡ filter matches (set.ascending self.now.rows)) }
        ensures part { IfOk result (λ found. IsPart (set.ascending self.now.rows) found.items) }
        ensures limit { set.len self.now.rows ≤ MOST_ROWS }
    {
        // Asked for its bound alone.
        let _count = self.len();
        matches(alloc, self.look_up(alloc, values)?, test)
    }

    /// What taking out the rows with these first values that pass a test would change. The test sees each row where it
    /// stands. The change fits.
    pub fn delete_where<F: Fn(&StoredRow<'_>) -> bool>(
        &self,
        alloc: Global,
        values: &[Value],
        test: F,
    ) -> Result<(u64, Delta), AllocError>
        requires test { F.IsAlwaysCallable test }
        requires first { kinds_of values.now ≡ take (length values.now) self.now.kinds }
        ensures change { (passes : List Cell → Bool) → Computes F.Fn test self.now.rows passes
            → let matches : List Cell → Bool = λ row. has_first values.now row && passes row in IfOk result (λ r.
            (r.0, changed_rows self.now.rows r.1.removed r.1.added) ≡ deletion self.now.rows matches) }
        ensures kinds { IfOk result (λ r. All (λ row. kinds_of row ≡ self.now.kinds) r.1.added) }
        ensures fits { IfOk result (λ r. IsOk (application self.now.rows r.1.removed r.1.added)) }
    {
        let matched = self.matches(alloc, values, test)?;
        Ok((
            matched.len() as u64,
            Delta {
                removed: Sequence::from_vec(matched),
                added: Sequence::new(alloc),
            },
        ))
    }

    /// What putting its image in the place of each row with these first values that passes a test would change, or the
    /// fault of the first such row, in ascending order, that has no image. The change fits, as that of `replace`.
    pub fn replace_where<
        E: Drop,
        F: Fn(&StoredRow<'_>) -> bool,
        G: Fn(&Row) -> Result<Row, Refusal<E>>,
    >(
        &self,
        alloc: Global,
        values: &[Value],
        test: F,
        change: G,
    ) -> Result<(u64, Delta), Refusal<E>>
        requires test { F.IsAlwaysCallable test }
        requires change { G.IsAlwaysCallable change }
        requires first { kinds_of values.now ≡ take (length values.now) self.now.kinds }
        requires kinds { KeepsKinds G.Fn change self.now.rows self.now.kinds }
        ensures change { (passes : List Cell → Bool) (image : List Cell → Result (List Cell) E)
            → Computes F.Fn test self.now.rows passes
            → Changes G.Fn change self.now.rows image
            → let matches : List Cell → Bool = λ row. has_first values.now row && passes row in
            Gives (λ r. (r.0, changed_rows self.now.rows r.1.removed r.1.added))
            result (replacement self.now.rows matches image) }
        ensures kinds { IfOk result (λ r. All (λ row. kinds_of row ≡ self.now.kinds) r.1.added) }
        ensures fits { IfOk result (λ r. IsOk (application self.now.rows r.1.removed r.1.added)) }
    {
        let matched = self.matches(alloc, values, test)?;
        let added = flattened(images(alloc, matched.as_slice(), change))?;
        let count = matched.len() as u64;
        Ok((
            count,
            Delta {
                removed: Sequence::from_vec(matched),
                added: Sequence::from_vec(added),
            },
        ))
    }

    /// The table after a change. It makes anew the pages that change and shares the others.
    pub fn apply(&self, alloc: Global, delta: &Delta) -> Result<Table, Refusal<TableFull>>
        requires { All (λ row. kinds_of row ≡ self.now.kinds) delta.now.added }
        ensures rows { Gives (λ table. table.rows) result
            (application self.now.rows delta.now.removed delta.now.added) }
        ensures kinds { IfOk result (λ table. table.kinds ≡ self.now.kinds) }
    {
        let kinds = Vec::from_slice(alloc, self.kinds.as_slice())?;
        let (removed, added) = (delta.removed.as_slice(), delta.added.as_slice());
        let keys = keys_changed(alloc, &kinds, &self.keys, removed, added)?;
        Ok(Table { kinds, keys })
    }

    /// Whether two tables are the same, kinds and rows. It takes no memory.
    pub fn is_same(&self, other: &Table) -> bool
        ensures { IsTrue result ↔ (self.now ≡ other.now) }
    {
        are_same_kinds(&self.kinds, &other.kinds) && self.keys.is_same(&other.keys)
    }

    /// The same table; all pages are shared.
    pub fn copy(&self, alloc: Global) -> Result<Table, AllocError>
        ensures { IfOk result (λ table. table ≡ self.now) }
    {
        let kinds = Vec::from_slice(alloc, self.kinds.as_slice())?;
        let keys = self.keys.copy(alloc)?;
        Ok(Table { kinds, keys })
    }
}
