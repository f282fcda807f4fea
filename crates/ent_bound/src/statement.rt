//! The other statements, and scripts.
use crate::part::Part;
use crate::variable::BoundVariable;
use ent_tree::{Assignment, Delete, Duplicate, Insert, Script, Set, Statement, Update};
use ent_value::Name;
use std::alloc::{AllocError, Global};

impl Part for Insert {
    ghost use Rattle.ent_bound.specs.Over.{insert_over};

    ghost values = { λ insert. insert.values };

    ghost over = { insert_over };

    fn uses(&self, name: &Name) -> bool {
        self.values.uses(name)
    }

    fn bound(&self, alloc: Global, variables: &[BoundVariable]) -> Result<Self, AllocError> {
        Ok(Insert {
            table: self.table.copy(alloc)?,
            place: self.place,
            values: self.values.bound(alloc, variables)?,
        })
    }
}

impl Part for Delete {
    ghost use Rattle.ent_bound.specs.Over.{delete_over};
    ghost use Rattle.ent_bound.specs.Values.{tests_values};

    ghost values = { λ delete. tests_values delete.tests };

    ghost over = { delete_over };

    fn uses(&self, name: &Name) -> bool {
        self.tests.uses(name)
    }

    fn bound(&self, alloc: Global, variables: &[BoundVariable]) -> Result<Self, AllocError> {
        Ok(Delete {
            table: self.table.copy(alloc)?,
            tests: self.tests.bound(alloc, variables)?,
        })
    }
}

impl Part for Assignment {
    ghost use Rattle.ent_bound.specs.Over.{assignment_over};
    ghost use Rattle.ent_bound.specs.Values.{assignment_values};

    ghost values = { assignment_values };

    ghost over = { assignment_over };

    fn uses(&self, name: &Name) -> bool {
        self.expression.uses(name)
    }

    fn bound(&self, alloc: Global, variables: &[BoundVariable]) -> Result<Self, AllocError> {
        Ok(Assignment {
            column: self.column.copy(alloc)?,
            expression: self.expression.bound(alloc, variables)?,
        })
    }
}

impl Part for Update {
    ghost use Rattle.ent_bound.specs.Over.{update_over};
    ghost use Rattle.ent_bound.specs.Values.{update_values};

    ghost values = { update_values };

    ghost over = { update_over };

    fn uses(&self, name: &Name) -> bool {
        self.assignments.uses(name) || self.tests.uses(name)
    }

    fn bound(&self, alloc: Global, variables: &[BoundVariable]) -> Result<Self, AllocError> {
        Ok(Update {
            table: self.table.copy(alloc)?,
            assignments: self.assignments.bound(alloc, variables)?,
            tests: self.tests.bound(alloc, variables)?,
        })
    }
}

impl Part for Set {
    ghost use Rattle.ent_bound.specs.Over.{set_over};
    ghost use Rattle.ent_bound.specs.Values.{set_values};

    ghost values = { set_values };

    ghost over = { set_over };

    fn uses(&self, name: &Name) -> bool {
        self.expression.uses(name)
    }

    fn bound(&self, alloc: Global, variables: &[BoundVariable]) -> Result<Self, AllocError> {
        Ok(Set {
            variable: self.variable.copy(alloc)?,
            expression: self.expression.bound(alloc, variables)?,
        })
    }
}

impl Part for Statement {
    ghost use Rattle.ent_bound.specs.Over.{statement_over};
    ghost use Rattle.ent_bound.specs.Values.{statement_values};

    ghost values = { statement_values };

    ghost over = { statement_over };

    fn uses(&self, name: &Name) -> bool {
        match self {
            Statement::Select(select) => select.uses(name),
            Statement::Entangled(entangled) => entangled.uses(name),
            Statement::Insert(insert) => insert.uses(name),
            Statement::Delete(delete) => delete.uses(name),
            Statement::Update(update) => update.uses(name),
            Statement::Set(set) => set.uses(name),
        }
    }

    fn bound(&self, alloc: Global, variables: &[BoundVariable]) -> Result<Self, AllocError> {
        match self {
            Statement::Select(select) => Ok(Statement::Select(select.bound(alloc, variables)?)),
            Statement::Entangled(entangled) => {
                Ok(Statement::Entangled(entangled.bound(alloc, variables)?))
            }
            Statement::Insert(insert) => Ok(Statement::Insert(insert.bound(alloc, variables)?)),
            Statement::Delete(delete) => Ok(Statement::Delete(delete.bound(alloc, variables)?)),
            Statement::Update(update) => Ok(Statement::Update(update.bound(alloc, variables)?)),
            Statement::Set(set) => Ok(Statement::Set(set.bound(alloc, variables)?)),
        }
    }
}

impl Part for Script {
    ghost use Rattle.ent_bound.specs.Over.{script_over};
    ghost use Rattle.ent_bound.specs.Values.{script_values};

    ghost values = { script_values };

    ghost over = { script_over };

    fn uses(&self, name: &Name) -> bool {
        self.statements.uses(name)
    }

    fn bound(&self, alloc: Global, variables: &[BoundVariable]) -> Result<Self, AllocError> {
        Ok(Script {
            within: self.within,
            statements: self.statements.bound(alloc, variables)?,
            end: self.end,
        })
    }
}
