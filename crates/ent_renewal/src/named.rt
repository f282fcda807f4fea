//! Tables that are found by their names.
ghost use Rattle.std.specs.Prelude.{◌≡◌, MatchOption};
ghost use Rattle.ent_lists.specs.Sets as set;
ghost use Rattle.ent_semantics.specs.Database.{Database};
ghost use Rattle.ent_book.specs.Tables.{tables_database};

use ent_book::{NamedTable, table_named};
use ent_rel::Table;
use ent_value::{Name, Sequence};

/// Tables that are found by their names.
pub trait TablesByName {
    ghost database: { Self → Database };

    /// The table of a name; none where no row stands under it.
    fn table_named(&self, name: &Name) -> Option<&Table>
        ensures { MatchOption result (database self.now name.now ≡ set.empty)
            (λ table. database self.now name.now ≡ table.now.rows) };
}

/// The tables of a book.
impl TablesByName for Sequence<NamedTable> {
    ghost database = { tables_database };

    fn table_named(&self, name: &Name) -> Option<&Table> {
        table_named(self.as_slice(), name)
    }
}
