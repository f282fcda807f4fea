//! Values, operands and terms, and what is made of them.
ghost use Rattle.std.specs.Prelude.{◌≡◌, IfOk};
ghost use Rattle.ent_semantics.specs.Term.{no_value};
ghost use Rattle.ent_semantics.specs.Form.{known_worth};
ghost use Rattle.ent_closing.specs.Environment.{environment_of};

use crate::closing::Closing;
use crate::environment::Environment;
use ent_semantics::{Known, Operand, Term};
use ent_tree::{Boxed, Expression, Test};
use ent_value::Value;
use std::alloc::{AllocError, Global};

impl Closing for Known {
    type Closed = Value;

    ghost use Rattle.ent_semantics.specs.Form.{known_worth};

    ghost closing = { known_worth };

    fn closed(&self, alloc: Global, environment: &Environment) -> Result<Value, AllocError> {
        match self {
            Known::Constant(value) => value.copy(alloc),
            Known::HostVariable(variable) => match environment.value_of(variable) {
                Some(value) => value.copy(alloc),
                // A script that was let through names no other.
                None => Ok(Value::Int(0)),
            },
        }
    }
}

impl Closing for Operand<Known> {
    type Closed = Operand<Value>;

    ghost use Rattle.ent_semantics.specs.Closing.{operand_over};
    ghost use Rattle.ent_semantics.specs.Form.{known_worth};

    ghost closing = { λ environment operand. operand_over (known_worth environment) operand };

    fn closed(
        &self,
        alloc: Global,
        environment: &Environment,
    ) -> Result<Operand<Value>, AllocError> {
        match self {
            Operand::Known(known) => Ok(Operand::Known(known.closed(alloc, environment)?)),
            Operand::Column(number) => Ok(Operand::Column(*number)),
        }
    }
}

impl Closing for Term<Known> {
    type Closed = Term<Value>;

    ghost use Rattle.ent_semantics.specs.Closing.{term_over};
    ghost use Rattle.ent_semantics.specs.Form.{known_worth};

    ghost closing = { λ environment term. term_over (known_worth environment) term };

    fn closed(&self, alloc: Global, environment: &Environment) -> Result<Term<Value>, AllocError> {
        match self {
            Term::Known(known) => Ok(Term::Known(known.closed(alloc, environment)?)),
            Term::Variable(number) => Ok(Term::Variable(*number)),
        }
    }
}

impl<T: Closing> Closing for Test<T> {
    type Closed = Test<T::Closed>;

    ghost use Rattle.ent_semantics.specs.Closing.{test_over};

    ghost closing = { λ environment test. test_over (T.closing environment) test };

    fn closed(
        &self,
        alloc: Global,
        environment: &Environment,
    ) -> Result<Test<T::Closed>, AllocError> {
        let left = self.left.closed(alloc, environment)?;
        let right = self.right.closed(alloc, environment)?;
        Ok(Test {
            left,
            comparison: self.comparison,
            right,
        })
    }
}

impl<T: Closing> Closing for Expression<T> {
    type Closed = Expression<T::Closed>;

    ghost use Rattle.ent_semantics.specs.Closing.{expression_over};

    ghost closing = { λ environment expression. expression_over (T.closing environment) expression };

    fn closed(
        &self,
        alloc: Global,
        environment: &Environment,
    ) -> Result<Expression<T::Closed>, AllocError> {
        match self {
            Expression::Single(term) => Ok(Expression::Single(term.closed(alloc, environment)?)),
            Expression::Sum(left, right) => {
                let left = left.closed(alloc, environment)?;
                let right = right.get().closed(alloc, environment)?;
                Ok(Expression::Sum(left, Boxed::new(alloc, right)?))
            }
            Expression::Difference(left, right) => {
                let left = left.closed(alloc, environment)?;
                let right = right.get().closed(alloc, environment)?;
                Ok(Expression::Difference(left, Boxed::new(alloc, right)?))
            }
        }
    }
}
