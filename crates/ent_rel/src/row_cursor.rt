//! A walk over the rows of a table.
ghost use Rattle.std.specs.Prelude.{◌≡◌, ◌∷◌, [], MatchOption, map};
ghost use Rattle.ent_page.specs.Read.{row_from};
ghost use Rattle.ent_page.specs.Rows.{AreKeys};

use ent_page::{KeyCursor, StoredRow};
use ent_value::Kind;
use std::marker::Model;

/// A walk over rows of a table in ascending order, each where it stands: no [`ent_value::Row`] is made. Contracts see
/// the rows that are left.
#[derive(Drop)]
pub struct RowCursor<'a> {
    kinds: &'a [Kind],
    keys: KeyCursor<'a>,
}

impl<'a> Model for RowCursor<'a> {
    ghost use Rattle.std.specs.Prelude.{List, map};
    ghost use Rattle.ent_value.specs.declared.value.Value.{Value as Cell};
    ghost use Rattle.ent_page.specs.Read.{row_from};
    ghost use Rattle.ent_page.specs.Rows.{AreKeys};

    ghost Value = { List (List Cell) };

    ghost view = { λ c. map (row_from c.kinds.now) c.keys };

    ghost invariant = { λ c. AreKeys c.kinds.now c.keys };
}

impl<'a> RowCursor<'a> {
    /// A walk over the rows of these kinds that have these keys.
    pub(crate) fn new(kinds: &'a [Kind], keys: KeyCursor<'a>) -> Self
        requires { AreKeys kinds.now keys }
        ensures { result ≡ map (row_from kinds.now) keys.entry }
    {
        RowCursor { kinds, keys }
    }

    /// The next row, or `None` after the last.
    #[inline(always)]
    pub fn next_row(&mut self) -> Option<StoredRow<'a>>
        ensures { MatchOption result ((self.old ≡ []) × (self.new ≡ [])) (λ row. self.old ≡ row ∷ self.new) }
    {
        let key = self.keys.next_key()?;
        Some(StoredRow::new(self.kinds, key))
    }
}
