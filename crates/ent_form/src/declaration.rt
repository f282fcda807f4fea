//! Names that are declared twice.
ghost use Rattle.std.specs.Prelude.{◌≡◌, [], map};
ghost use Rattle.std.specs.List.{list_any};
ghost use Rattle.ent_semantics.specs.Database.{same_name};
ghost use Rattle.ent_form.specs.OpeningFault.{repeated, declarations_fault};

use crate::fault::FormFault;
use ent_semantics::is_column_among;
use ent_tree::{Column, Create};
use ent_value::Name;

/// Whether one of these tables has this name.
fn is_table_among(tables: &[Create], name: &Name) -> bool
    ensures { result ≡ list_any (λ table. same_name table.name.name name.now) tables.now }
{
    tables.iter().any(|table| table.name.name == *name)
}

/// The first name of a column that stands among those before it.
fn repeated_column(columns: &[Column]) -> Option<FormFault>
    ensures { result ≡ repeated [] (map (λ column. column.name) columns.now) }
{
    for (number, column) in columns.iter().enumerate() {
        if is_column_among(&columns[..number], &column.name.name) {
            return Some(FormFault::Repeated(column.name.place));
        }
    }
    None
}

/// The first name that is declared twice: that of a table, or that of a column in its table.
pub(crate) fn declarations_fault(tables: &[Create]) -> Option<FormFault>
    ensures { result ≡ declarations_fault [] tables.now }
{
    for (number, create) in tables.iter().enumerate() {
        if is_table_among(&tables[..number], &create.name.name) {
            return Some(FormFault::Repeated(create.name.place));
        }
        if let Some(fault) = repeated_column(create.columns.as_slice()) {
            return Some(fault);
        }
    }
    None
}
