//! Columns by their names.
ghost use Rattle.std.specs.Prelude.{◌≡◌};
ghost use Rattle.std.specs.List.{list_any};
ghost use Rattle.ent_semantics.specs.Database.{same_name};

use ent_tree::Column;
use ent_value::Name;

/// Whether one of these columns has this name.
pub fn is_column_among(columns: &[Column], name: &Name) -> bool
    ensures { result ≡ list_any (λ column. same_name column.name.name name.now) columns.now }
{
    columns.iter().any(|column| column.name.name == *name)
}
