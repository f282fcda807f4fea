//! Values, operands, and what is made of them.
use crate::part::Part;
use crate::variable::{BoundVariable, value_bound};
use ent_tree::{Boxed, Duplicate, Expression, Literal, Operand, Test, ValueSpecification};
use ent_value::Name;
use std::alloc::{AllocError, Global};

impl Part for ValueSpecification {
    ghost use Rattle.std.specs.Prelude.{◌∷◌, []};

    ghost values = { λ value. value ∷ [] };

    ghost over = { λ making value. making value };

    fn uses(&self, name: &Name) -> bool {
        match self {
            ValueSpecification::Literal(_) => false,
            ValueSpecification::HostVariable(variable) => variable.name == *name,
        }
    }

    fn bound(&self, alloc: Global, variables: &[BoundVariable]) -> Result<Self, AllocError> {
        match self {
            ValueSpecification::Literal(literal) => {
                Ok(ValueSpecification::Literal(literal.copy(alloc)?))
            }
            ValueSpecification::HostVariable(variable) => {
                match value_bound(variables, &variable.name) {
                    Some(value) => Ok(ValueSpecification::Literal(Literal {
                        value: value.copy(alloc)?,
                        place: variable.place,
                    })),
                    None => Ok(ValueSpecification::HostVariable(variable.copy(alloc)?)),
                }
            }
        }
    }
}

impl Part for Operand {
    ghost use Rattle.ent_bound.specs.Over.{operand_over};
    ghost use Rattle.ent_bound.specs.Values.{operand_values};

    ghost values = { operand_values };

    ghost over = { operand_over };

    fn uses(&self, name: &Name) -> bool {
        match self {
            Operand::Value(value) => value.uses(name),
            Operand::Column(_) => false,
        }
    }

    fn bound(&self, alloc: Global, variables: &[BoundVariable]) -> Result<Self, AllocError> {
        match self {
            Operand::Value(value) => Ok(Operand::Value(value.bound(alloc, variables)?)),
            Operand::Column(reference) => Ok(Operand::Column(reference.copy(alloc)?)),
        }
    }
}

impl<T: Part + Drop> Part for Expression<T> {
    ghost use Rattle.ent_bound.specs.Over.{expression_over};
    ghost use Rattle.ent_bound.specs.Values.{expression_values};

    ghost values = { expression_values T.values };

    ghost over = { λ making. expression_over (T.over making) };

    fn uses(&self, name: &Name) -> bool {
        match self {
            Expression::Single(term) => term.uses(name),
            Expression::Sum(left, right) => left.uses(name) || right.get().uses(name),
            Expression::Difference(left, right) => left.uses(name) || right.get().uses(name),
        }
    }

    fn bound(&self, alloc: Global, variables: &[BoundVariable]) -> Result<Self, AllocError> {
        match self {
            Expression::Single(term) => Ok(Expression::Single(term.bound(alloc, variables)?)),
            Expression::Sum(left, right) => {
                let left = left.bound(alloc, variables)?;
                let right = right.get().bound(alloc, variables)?;
                Ok(Expression::Sum(left, Boxed::new(alloc, right)?))
            }
            Expression::Difference(left, right) => {
                let left = left.bound(alloc, variables)?;
                let right = right.get().bound(alloc, variables)?;
                Ok(Expression::Difference(left, Boxed::new(alloc, right)?))
            }
        }
    }
}

impl<T: Part + Drop> Part for Test<T> {
    ghost use Rattle.ent_bound.specs.Over.{test_over};
    ghost use Rattle.ent_bound.specs.Values.{test_values};

    ghost values = { test_values T.values };

    ghost over = { λ making. test_over (T.over making) };

    fn uses(&self, name: &Name) -> bool {
        self.left.uses(name) || self.right.uses(name)
    }

    fn bound(&self, alloc: Global, variables: &[BoundVariable]) -> Result<Self, AllocError> {
        Ok(Test {
            left: self.left.bound(alloc, variables)?,
            comparison: self.comparison,
            right: self.right.bound(alloc, variables)?,
        })
    }
}
