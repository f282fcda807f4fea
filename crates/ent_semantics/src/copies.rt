//! Copies.
use crate::entangled::{Atom, Binding, Entangled, Membership, Term};
use crate::operand::{Known, Operand};
use crate::statement::{Select, Statement};
use ent_tree::Duplicate;
use std::alloc::{AllocError, Global};

impl Duplicate for Known {
    fn copy(&self, alloc: Global) -> Result<Self, AllocError> {
        match self {
            Known::Constant(value) => Ok(Known::Constant(value.copy(alloc)?)),
            Known::HostVariable(variable) => Ok(Known::HostVariable(variable.copy(alloc)?)),
        }
    }
}

impl<K: Duplicate + Drop> Duplicate for Operand<K> {
    fn copy(&self, alloc: Global) -> Result<Self, AllocError> {
        match self {
            Operand::Known(known) => Ok(Operand::Known(known.copy(alloc)?)),
            Operand::Column(number) => Ok(Operand::Column(*number)),
        }
    }
}

impl<K: Duplicate + Drop> Duplicate for Term<K> {
    fn copy(&self, alloc: Global) -> Result<Self, AllocError> {
        match self {
            Term::Known(known) => Ok(Term::Known(known.copy(alloc)?)),
            Term::Variable(number) => Ok(Term::Variable(*number)),
        }
    }
}

impl<K: Duplicate + Drop> Duplicate for Atom<K> {
    fn copy(&self, alloc: Global) -> Result<Self, AllocError> {
        Ok(Atom {
            relation: self.relation.copy(alloc)?,
            terms: self.terms.copy(alloc)?,
        })
    }
}

impl<K: Duplicate + Drop> Duplicate for Select<K> {
    fn copy(&self, alloc: Global) -> Result<Self, AllocError> {
        Ok(Select {
            sources: self.sources.copy(alloc)?,
            items: self.items.copy(alloc)?,
            tests: self.tests.copy(alloc)?,
        })
    }
}

impl<K: Duplicate + Drop> Duplicate for Membership<K> {
    fn copy(&self, alloc: Global) -> Result<Self, AllocError> {
        Ok(Membership {
            terms: self.terms.copy(alloc)?,
            select: self.select.copy(alloc)?,
        })
    }
}

impl<K: Duplicate + Drop> Duplicate for Binding<K> {
    fn copy(&self, alloc: Global) -> Result<Self, AllocError> {
        Ok(Binding {
            variable: self.variable.copy(alloc)?,
            term: self.term.copy(alloc)?,
        })
    }
}

impl<K: Duplicate + Drop> Duplicate for Entangled<K> {
    fn copy(&self, alloc: Global) -> Result<Self, AllocError> {
        Ok(Entangled {
            variables: self.variables.copy(alloc)?,
            posts: self.posts.copy(alloc)?,
            heads: self.heads.copy(alloc)?,
            atoms: self.atoms.copy(alloc)?,
            tests: self.tests.copy(alloc)?,
            binds: self.binds.copy(alloc)?,
        })
    }
}

impl<K: Duplicate + Drop> Duplicate for Statement<K> {
    fn copy(&self, alloc: Global) -> Result<Self, AllocError> {
        match self {
            Statement::Select(select) => Ok(Statement::Select(select.copy(alloc)?)),
            Statement::Entangled(entangled) => Ok(Statement::Entangled(entangled.copy(alloc)?)),
            Statement::Insert { table, values } => Ok(Statement::Insert {
                table: *table,
                values: values.copy(alloc)?,
            }),
            Statement::Delete { table, tests } => Ok(Statement::Delete {
                table: *table,
                tests: tests.copy(alloc)?,
            }),
            Statement::Update {
                table,
                image,
                tests,
            } => Ok(Statement::Update {
                table: *table,
                image: image.copy(alloc)?,
                tests: tests.copy(alloc)?,
            }),
            Statement::Set {
                variable,
                expression,
            } => Ok(Statement::Set {
                variable: variable.copy(alloc)?,
                expression: expression.copy(alloc)?,
            }),
        }
    }
}
