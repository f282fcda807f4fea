//! Which host variables a script gives values itself.
ghost use Rattle.std.specs.Prelude.{◌≡◌};
ghost use Rattle.std.specs.List.{flat_map};
ghost use Rattle.ent_semantics.specs.Database.{is_among};
ghost use Rattle.ent_bound.specs.Values.{item_sets, statement_sets, is_set};

use ent_tree::{EntangledItem, Script, Statement};
use ent_value::Name;

/// Whether an item gives the host variable of a name a value.
fn item_sets(item: &EntangledItem, name: &Name) -> bool
    ensures { result ≡ is_among (item_sets item.now) name.now }
{
    match &item.binds {
        Some(variable) => variable.name == *name,
        None => false,
    }
}

fn items_set(items: &[EntangledItem], name: &Name) -> bool
    ensures { result ≡ is_among (flat_map item_sets items.now) name.now }
{
    for item in items {
        if item_sets(item, name) {
            return true;
        }
    }
    false
}

/// Whether a statement gives the host variable of a name a value.
fn statement_sets(statement: &Statement, name: &Name) -> bool
    ensures { result ≡ is_among (statement_sets statement.now) name.now }
{
    match statement {
        Statement::Set(set) => set.variable.name == *name,
        Statement::Entangled(entangled) => items_set(entangled.items.as_slice(), name),
        _ => false,
    }
}

/// Whether a script gives the host variable of a name a value itself.
pub(crate) fn is_set(script: &Script, name: &Name) -> bool
    ensures { result ≡ is_set script.now name.now }
{
    for statement in script.statements.as_slice() {
        if statement_sets(statement, name) {
            return true;
        }
    }
    false
}
