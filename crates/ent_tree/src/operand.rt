//! Names, values and what is made of them.
ghost use Rattle.std.specs.Prelude.{◌≡◌};
ghost use Rattle.ent_tree.specs.Places.{value_place};

use crate::boxed::Boxed;
use crate::duplicate::Duplicate;
use crate::same::Same;
use ent_value::{Name, Value};
use std::alloc::{AllocError, Global};

/// A name, and where it stands.
#[derive(Drop)]
pub struct Identifier {
    pub name: Name,
    pub place: usize,
}

/// A value as it is written; it stands where its first token does.
#[derive(Drop)]
pub struct Literal {
    pub value: Value,
    pub place: usize,
}

/// A value that is known before any row is read: one that is written, or that of a host variable, which stands where
/// its `@` does and is named without it.
#[derive(Drop)]
pub enum ValueSpecification {
    Literal(Literal),
    HostVariable(Identifier),
}

impl ValueSpecification {
    /// Where the value stands.
    pub fn place(&self) -> usize
        ensures { result ≡ value_place self.now }
    {
        match self {
            ValueSpecification::Literal(literal) => literal.place,
            ValueSpecification::HostVariable(variable) => variable.place,
        }
    }
}

/// `column`, or `qualifier.column`. The qualifier is the name or the alias of a source.
#[derive(Drop)]
pub struct ColumnReference {
    pub qualifier: Option<Boxed<Identifier>>,
    pub column: Identifier,
}

/// What is compared, assigned, or shown in a column of an answer.
#[derive(Drop)]
pub enum Operand {
    Value(ValueSpecification),
    Column(ColumnReference),
}

/// A term, or the sum or the difference of two.
pub enum Expression<T> {
    Single(T),
    Sum(T, Boxed<T>),
    Difference(T, Boxed<T>),
}

impl<T: Drop> Drop for Expression<T> {
    fn drop(self) {
        match self {
            Expression::Single(_term) => {}
            Expression::Sum(_left, _right) => {}
            Expression::Difference(_left, _right) => {}
        }
    }
}

/// How two operands are compared.
#[derive(Clone, Copy, Debug, PartialEq, Eq)]
pub enum Comparison {
    Equal,
    NotEqual,
    Less,
    LessOrEqual,
    Greater,
    GreaterOrEqual,
}

/// `left comparison right`, of operands in a WHERE, of terms in an entangled statement.
pub struct Test<T> {
    pub left: T,
    pub comparison: Comparison,
    pub right: T,
}

impl<T: Drop> Drop for Test<T> {
    fn drop(self) {
        let Test {
            left: _left,
            comparison: _comparison,
            right: _right,
        } = self;
    }
}

impl Duplicate for Identifier {
    fn copy(&self, alloc: Global) -> Result<Self, AllocError> {
        Ok(Identifier {
            name: self.name.copy(alloc)?,
            place: self.place,
        })
    }
}

impl Duplicate for Literal {
    fn copy(&self, alloc: Global) -> Result<Self, AllocError> {
        Ok(Literal {
            value: self.value.copy(alloc)?,
            place: self.place,
        })
    }
}

impl Duplicate for ValueSpecification {
    fn copy(&self, alloc: Global) -> Result<Self, AllocError> {
        match self {
            ValueSpecification::Literal(literal) => Ok(ValueSpecification::Literal(literal.copy(
                alloc,
            )?)),
            ValueSpecification::HostVariable(variable) => Ok(ValueSpecification::HostVariable(
                variable.copy(alloc)?,
            )),
        }
    }
}

impl Duplicate for ColumnReference {
    fn copy(&self, alloc: Global) -> Result<Self, AllocError> {
        Ok(ColumnReference {
            qualifier: self.qualifier.copy(alloc)?,
            column: self.column.copy(alloc)?,
        })
    }
}

impl Duplicate for Operand {
    fn copy(&self, alloc: Global) -> Result<Self, AllocError> {
        match self {
            Operand::Value(value) => Ok(Operand::Value(value.copy(alloc)?)),
            Operand::Column(reference) => Ok(Operand::Column(reference.copy(alloc)?)),
        }
    }
}

impl<T: Duplicate + Drop> Duplicate for Expression<T> {
    fn copy(&self, alloc: Global) -> Result<Self, AllocError> {
        match self {
            Expression::Single(term) => Ok(Expression::Single(term.copy(alloc)?)),
            Expression::Sum(left, right) => Ok(Expression::Sum(
                left.copy(alloc)?,
                right.copy(alloc)?,
            )),
            Expression::Difference(left, right) => Ok(Expression::Difference(
                left.copy(alloc)?,
                right.copy(alloc)?,
            )),
        }
    }
}

impl<T: Duplicate + Drop> Duplicate for Test<T> {
    fn copy(&self, alloc: Global) -> Result<Self, AllocError> {
        Ok(Test {
            left: self.left.copy(alloc)?,
            comparison: self.comparison,
            right: self.right.copy(alloc)?,
        })
    }
}

impl Same for Identifier {
    fn is_same(&self, other: &Identifier) -> bool {
        self.name.is_same(&other.name) && self.place == other.place
    }
}

impl Same for Literal {
    fn is_same(&self, other: &Literal) -> bool {
        self.value.is_same(&other.value) && self.place == other.place
    }
}

impl Same for ValueSpecification {
    fn is_same(&self, other: &ValueSpecification) -> bool {
        match self {
            ValueSpecification::Literal(mine) => match other {
                ValueSpecification::Literal(theirs) => mine.is_same(theirs),
                _ => false,
            },
            ValueSpecification::HostVariable(mine) => match other {
                ValueSpecification::HostVariable(theirs) => mine.is_same(theirs),
                _ => false,
            },
        }
    }
}

impl<T: Same> Same for Expression<T> {
    fn is_same(&self, other: &Expression<T>) -> bool {
        match self {
            Expression::Single(mine) => match other {
                Expression::Single(theirs) => mine.is_same(theirs),
                _ => false,
            },
            Expression::Sum(left, right) => match other {
                Expression::Sum(first, second) => left.is_same(first) && right.is_same(second),
                _ => false,
            },
            Expression::Difference(left, right) => match other {
                Expression::Difference(first, second) => {
                    left.is_same(first) && right.is_same(second)
                }
                _ => false,
            },
        }
    }
}

impl Same for ColumnReference {
    fn is_same(&self, other: &ColumnReference) -> bool {
        self.qualifier.is_same(&other.qualifier) && self.column.is_same(&other.column)
    }
}

impl Same for Operand {
    fn is_same(&self, other: &Operand) -> bool {
        match self {
            Operand::Value(mine) => match other {
                Operand::Value(theirs) => mine.is_same(theirs),
                _ => false,
            },
            Operand::Column(mine) => match other {
                Operand::Column(theirs) => mine.is_same(theirs),
                _ => false,
            },
        }
    }
}

impl<T: Same> Same for Test<T> {
    fn is_same(&self, other: &Test<T>) -> bool {
        self.left.is_same(&other.left)
            && self.comparison == other.comparison
            && self.right.is_same(&other.right)
    }
}
