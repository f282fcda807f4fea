//! Tables of which some count as empty.
ghost use Rattle.std.specs.Prelude.{◌≡◌};
ghost use Rattle.ent_semantics.specs.Database.{is_among};
ghost use Rattle.ent_renewal.specs.Renewal.{drained};

use crate::named::TablesByName;
use ent_rel::Table;
use ent_value::Name;

/// Tables, of which those of these names count as empty.
#[derive(Drop)]
pub(crate) struct Drained<'a, T> {
    pub(crate) tables: &'a T,
    pub(crate) names: &'a [Name],
}

/// Whether one of these names is the name.
fn is_among(names: &[Name], name: &Name) -> bool
    ensures { result ≡ is_among names.now name.now }
{
    names.iter().any(|other| *other == *name)
}

impl<'a, T: TablesByName> TablesByName for Drained<'a, T> {
    ghost database = { λ d. drained d.names.now (T.database d.tables.now) };

    fn table_named(&self, name: &Name) -> Option<&Table> {
        if is_among(self.names, name) {
            return None;
        }
        self.tables.table_named(name)
    }
}
