//! Statements that change a table or bind a host variable.
use crate::duplicate::Duplicate;
use crate::limits::MOST_PARTS;
use crate::operand::{Expression, Identifier, Operand, Test, ValueSpecification};
use crate::same::Same;
use ent_value::Limited;
use std::alloc::{AllocError, Global};

/// `INSERT INTO table VALUES (values)`
#[derive(Drop)]
pub struct Insert {
    pub table: Identifier,
    /// Where the `(` behind VALUES stands.
    pub place: usize,
    pub values: Limited<ValueSpecification, MOST_PARTS>,
}

/// `DELETE FROM table WHERE tests`
#[derive(Drop)]
pub struct Delete {
    pub table: Identifier,
    pub tests: Limited<Test<Operand>, MOST_PARTS>,
}

/// `column = expression` in an UPDATE.
#[derive(Drop)]
pub struct Assignment {
    pub column: Identifier,
    pub expression: Expression<Operand>,
}

/// `UPDATE table SET assignments WHERE tests`
#[derive(Drop)]
pub struct Update {
    pub table: Identifier,
    pub assignments: Limited<Assignment, MOST_PARTS>,
    pub tests: Limited<Test<Operand>, MOST_PARTS>,
}

/// `SET variable = expression` The variable stands where its `@` does, and is named without it.
#[derive(Drop)]
pub struct Set {
    pub variable: Identifier,
    pub expression: Expression<ValueSpecification>,
}

impl Duplicate for Insert {
    fn copy(&self, alloc: Global) -> Result<Self, AllocError> {
        Ok(Insert {
            table: self.table.copy(alloc)?,
            place: self.place,
            values: self.values.copy(alloc)?,
        })
    }
}

impl Duplicate for Delete {
    fn copy(&self, alloc: Global) -> Result<Self, AllocError> {
        Ok(Delete {
            table: self.table.copy(alloc)?,
            tests: self.tests.copy(alloc)?,
        })
    }
}

impl Duplicate for Assignment {
    fn copy(&self, alloc: Global) -> Result<Self, AllocError> {
        Ok(Assignment {
            column: self.column.copy(alloc)?,
            expression: self.expression.copy(alloc)?,
        })
    }
}

impl Duplicate for Update {
    fn copy(&self, alloc: Global) -> Result<Self, AllocError> {
        Ok(Update {
            table: self.table.copy(alloc)?,
            assignments: self.assignments.copy(alloc)?,
            tests: self.tests.copy(alloc)?,
        })
    }
}

impl Duplicate for Set {
    fn copy(&self, alloc: Global) -> Result<Self, AllocError> {
        Ok(Set {
            variable: self.variable.copy(alloc)?,
            expression: self.expression.copy(alloc)?,
        })
    }
}

impl Same for Insert {
    fn is_same(&self, other: &Insert) -> bool {
        self.table.is_same(&other.table)
            && self.place == other.place
            && self.values.is_same(&other.values)
    }
}

impl Same for Delete {
    fn is_same(&self, other: &Delete) -> bool {
        self.table.is_same(&other.table) && self.tests.is_same(&other.tests)
    }
}

impl Same for Assignment {
    fn is_same(&self, other: &Assignment) -> bool {
        self.column.is_same(&other.column) && self.expression.is_same(&other.expression)
    }
}

impl Same for Update {
    fn is_same(&self, other: &Update) -> bool {
        self.table.is_same(&other.table)
            && self.assignments.is_same(&other.assignments)
            && self.tests.is_same(&other.tests)
    }
}

impl Same for Set {
    fn is_same(&self, other: &Set) -> bool {
        self.variable.is_same(&other.variable) && self.expression.is_same(&other.expression)
    }
}
