//! Host variables that a caller binds.
ghost use Rattle.std.specs.Prelude.{◌≡◌};
ghost use Rattle.std.specs.Option.{option_copied};
ghost use Rattle.ent_bound.specs.Bound.{value_bound};
ghost use Rattle.ent_bound.specs.Refused.{is_bound};

use crate::value::BoundValue;
use ent_value::{Name, Value};

/// A host variable, named without its `@`, and the value that a caller binds to it. A name that is no word of the
/// language, which [`ent_value::is_word`] tests, is one that no script uses.
#[derive(Debug, Drop)]
pub struct BoundVariable {
    pub name: Name,
    pub value: BoundValue,
}

/// Whether one of some variables has a name.
pub(crate) fn is_bound(variables: &[BoundVariable], name: &Name) -> bool
    ensures { result ≡ is_bound variables.now name.now }
{
    variables.iter().any(|variable| variable.name == *name)
}

/// The value that is bound to a name, by the first variable of that name.
pub(crate) fn value_bound<'a>(variables: &'a [BoundVariable], name: &Name) -> Option<&'a Value>
    ensures { option_copied result ≡ value_bound variables.now name.now }
{
    for variable in variables {
        if variable.name == *name {
            return Some(variable.value.get());
        }
    }
    None
}
