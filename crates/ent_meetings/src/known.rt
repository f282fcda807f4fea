//! What a text knows of its host variables.
ghost use Rattle.std.specs.Prelude.{◌≡◌, OnOk, IfOk};
ghost use Rattle.std.specs.Option.{option_copied};
ghost use Rattle.ent_semantics.specs.Database.{nothing_bound, with_value};
ghost use Rattle.ent_meetings.specs.Known.{forgotten, known_after, known_after_items};
ghost use Rattle.ent_meetings.specs.Known.{known_after_set, known_term};
ghost use Rattle.ent_meetings.specs.Bindings.{known_of, with_bindings};

use ent_tree::{EntangledItem, Expression, Identifier, Set, Statement, Term, ValueSpecification};
use ent_value::{Name, Value};
use std::alloc::{AllocError, Global};

/// A host variable and its value, or that its value isn't known any more.
#[derive(Drop)]
struct ValueBinding<'a> {
    variable: &'a Name,
    value: Option<&'a Value>,
}

/// What is known of the host variables of a script at one place of its text: of the bindings of one variable the last
/// counts.
#[derive(Drop)]
pub(crate) struct Known<'a> {
    bindings: Vec<ValueBinding<'a>>,
}

/// What the last binding of a host variable says.
fn last_value<'a>(bindings: &[ValueBinding<'a>], variable: &Name) -> Option<&'a Value>
    ensures { option_copied result ≡ with_bindings nothing_bound bindings.now variable.now }
{
    let mut found = None;
    for binding in bindings {
        if *binding.variable == *variable {
            found = binding.value;
        }
    }
    found
}

impl<'a> Known<'a> {
    /// Nothing is known at the begin of a script.
    pub(crate) fn new(alloc: Global) -> Self
        ensures { known_of result ≡ nothing_bound }
    {
        Known {
            bindings: Vec::new(alloc),
        }
    }

    /// The value of a host variable, where it is known.
    fn value_of(&self, variable: &Name) -> Option<&'a Value>
        ensures { option_copied result ≡ known_of self.now variable.now }
    {
        last_value(self.bindings.as_slice(), variable)
    }

    /// The value of a term, where it is known.
    pub(crate) fn term_value(&self, alloc: Global, term: &Term) -> Result<Option<Value>, AllocError>
        ensures { IfOk result (λ value. value ≡ known_term (known_of self.now) term.now) }
    {
        match term {
            Term::Value(ValueSpecification::Literal(literal)) => {
                Ok(Some(literal.value.copy(alloc)?))
            }
            Term::Value(ValueSpecification::HostVariable(variable)) => {
                match self.value_of(&variable.name) {
                    Some(value) => Ok(Some(value.copy(alloc)?)),
                    None => Ok(None),
                }
            }
            Term::Variable(_) => Ok(None),
        }
    }

    /// A host variable has this value from here on.
    fn set(&mut self, variable: &'a Name, value: &'a Value) -> Result<(), AllocError>
        ensures { OnOk result (known_of self.new ≡ with_value (known_of self.old) variable.now value.now) }
    {
        self.bindings.push(ValueBinding {
            variable,
            value: Some(value),
        })?;
        Ok(())
    }

    /// Nothing is known of a host variable any more.
    fn forget(&mut self, variable: &'a Name) -> Result<(), AllocError>
        ensures { OnOk result (known_of self.new ≡ forgotten (known_of self.old) variable.now) }
    {
        if self.value_of(variable).is_none() {
            return Ok(());
        }
        self.bindings.push(ValueBinding {
            variable,
            value: None,
        })?;
        Ok(())
    }

    fn pass_set(&mut self, set: &'a Set) -> Result<(), AllocError>
        ensures { OnOk result (known_of self.new
            ≡ known_after_set (known_of self.old) set.now.variable.name set.now.expression) }
    {
        match &set.expression {
            Expression::Single(ValueSpecification::Literal(literal)) => {
                self.set(&set.variable.name, &literal.value)
            }
            _ => self.forget(&set.variable.name),
        }
    }

    fn pass_items(&mut self, items: &'a [EntangledItem]) -> Result<(), AllocError>
        ensures { OnOk result (known_of self.new ≡ known_after_items (known_of self.old) items.now) }
    {
        for item in items {
            if let Some(variable) = &item.binds {
                self.forget(&variable.name)?;
            }
        }
        Ok(())
    }

    /// Goes on behind a statement.
    pub(crate) fn pass(&mut self, statement: &'a Statement) -> Result<(), AllocError>
        ensures { OnOk result (known_of self.new ≡ known_after (known_of self.old) statement.now) }
    {
        match statement {
            Statement::Set(set) => self.pass_set(set),
            Statement::Entangled(asked) => self.pass_items(asked.items.as_slice()),
            _ => Ok(()),
        }
    }
}
