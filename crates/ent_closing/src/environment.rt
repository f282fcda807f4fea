//! The host variables that a script has bound.
ghost use Rattle.std.specs.Prelude.{◌≡◌, [], ◌∷◌, ◌++◌, OnOk, OnErr, length, take};
ghost use Rattle.std.specs.Option.{option_copied};
ghost use Rattle.ent_semantics.specs.Database.{nothing_bound, with_value};
ghost use Rattle.ent_closing.specs.Environment.{environment_of};

use ent_value::{Name, Value};
use std::alloc::{AllocError, Global};
use std::marker::Model;

/// The host variables that a script has bound, each with its value. Contracts see the list of the bindings, in the
/// order of their making: of those of one variable the last counts.
pub struct Environment {
    bindings: Vec<(Name, Value)>,
}

impl Drop for Environment {
    fn drop(self) {
        let Environment {
            bindings: _bindings,
        } = self;
    }
}

impl Model for Environment {
    ghost use Rattle.std.specs.Prelude.{List};
    ghost use Rattle.ent_value.specs.declared.value.Value.{Value as Bound};
    ghost use Rattle.ent_semantics.specs.Database.{Name};

    ghost Value = { List (Name × Bound) };

    ghost view = { λ e. e.bindings.items };
}

impl Environment {
    /// The environment that binds nothing. It takes no memory.
    pub fn new(alloc: Global) -> Self
        ensures bindings { result ≡ [] }
        ensures nothing { environment_of result ≡ nothing_bound }
    {
        Environment {
            bindings: Vec::new(alloc),
        }
    }

    /// Binds a host variable to a value, whatever it was bound to. Where memory runs out nothing changes.
    pub fn bind(&mut self, variable: Name, value: Value) -> Result<(), AllocError>
        ensures bindings { OnOk result (self.new ≡ self.old ++ (variable, value) ∷ []) }
        ensures ok { OnOk result (environment_of self.new ≡ with_value (environment_of self.old) variable value) }
        ensures err { OnErr result (self.new ≡ self.old) }
    {
        self.bindings.push((variable, value))?;
        Ok(())
    }

    /// Binds host variables, one after the other. Where memory runs out nothing changes.
    pub fn bind_all(&mut self, bound: Vec<(Name, Value)>) -> Result<(), AllocError>
        ensures ok { OnOk result (self.new ≡ self.old ++ bound.items) }
        ensures err { OnErr result (self.new ≡ self.old) }
    {
        let mut bound = bound;
        self.bindings.append(&mut bound)
    }

    /// How many bindings were made, also those behind which another of the same variable came.
    pub fn count(&self) -> usize
        ensures { result ≡ length self.now }
    {
        self.bindings.len()
    }

    /// Takes back all bindings but the first so many.
    pub fn truncate(&mut self, count: usize)
        ensures { self.new ≡ take count self.old }
    {
        self.bindings.truncate(count);
    }

    /// What a host variable is bound to.
    pub fn value_of(&self, variable: &Name) -> Option<&Value>
        ensures { option_copied result ≡ environment_of self.now variable.now }
    {
        last_value(self.bindings.as_slice(), variable)
    }
}

/// The value of the last binding of a host variable.
fn last_value<'a>(bindings: &'a [(Name, Value)], variable: &Name) -> Option<&'a Value>
    ensures { option_copied result ≡ environment_of bindings.now variable.now }
{
    let mut found = None;
    for binding in bindings {
        if binding.0 == *variable {
            found = Some(&binding.1);
        }
    }
    found
}
