//! Scripts, and inputs of them.
use crate::declaration::Opening;
use crate::duplicate::Duplicate;
use crate::entangled::Entangled;
use crate::limits::{MOST_SCRIPTS, MOST_STATEMENTS, Runs};
use crate::same::Same;
use crate::select::Select;
use crate::statement::{Delete, Insert, Set, Update};
use ent_value::Limited;
use std::alloc::{AllocError, Global};

#[derive(Drop)]
pub enum Statement {
    Select(Select),
    Entangled(Entangled),
    Insert(Insert),
    Delete(Delete),
    Update(Update),
    Set(Set),
}

/// How a script ends.
#[derive(Clone, Copy, Debug, PartialEq, Eq)]
pub enum End {
    Commit,
    Rollback,
}

/// `BEGIN TRANSACTION WITHIN within RUNS; statements end;`
pub struct Script {
    /// In how many runs the transaction may take part, [`crate::DEFAULT_RUNS`] where the text says nothing.
    pub within: Runs,
    pub statements: Limited<Statement, MOST_STATEMENTS>,
    pub end: End,
}

impl Drop for Script {
    fn drop(self) {
        let Script {
            within: _within,
            statements: _statements,
            end: _end,
        } = self;
    }
}

#[derive(Drop)]
pub struct Input {
    pub opening: Opening,
    pub scripts: Limited<Script, MOST_SCRIPTS>,
}

impl Duplicate for Statement {
    fn copy(&self, alloc: Global) -> Result<Self, AllocError> {
        match self {
            Statement::Select(select) => Ok(Statement::Select(select.copy(alloc)?)),
            Statement::Entangled(entangled) => Ok(Statement::Entangled(entangled.copy(alloc)?)),
            Statement::Insert(insert) => Ok(Statement::Insert(insert.copy(alloc)?)),
            Statement::Delete(delete) => Ok(Statement::Delete(delete.copy(alloc)?)),
            Statement::Update(update) => Ok(Statement::Update(update.copy(alloc)?)),
            Statement::Set(set) => Ok(Statement::Set(set.copy(alloc)?)),
        }
    }
}

impl Duplicate for Script {
    fn copy(&self, alloc: Global) -> Result<Self, AllocError> {
        Ok(Script {
            within: self.within,
            statements: self.statements.copy(alloc)?,
            end: self.end,
        })
    }
}

impl Duplicate for Input {
    fn copy(&self, alloc: Global) -> Result<Self, AllocError> {
        Ok(Input {
            opening: self.opening.copy(alloc)?,
            scripts: self.scripts.copy(alloc)?,
        })
    }
}

impl Same for Statement {
    fn is_same(&self, other: &Statement) -> bool {
        match self {
            Statement::Select(mine) => match other {
                Statement::Select(theirs) => mine.is_same(theirs),
                _ => false,
            },
            Statement::Entangled(mine) => match other {
                Statement::Entangled(theirs) => mine.is_same(theirs),
                _ => false,
            },
            Statement::Insert(mine) => match other {
                Statement::Insert(theirs) => mine.is_same(theirs),
                _ => false,
            },
            Statement::Delete(mine) => match other {
                Statement::Delete(theirs) => mine.is_same(theirs),
                _ => false,
            },
            Statement::Update(mine) => match other {
                Statement::Update(theirs) => mine.is_same(theirs),
                _ => false,
            },
            Statement::Set(mine) => match other {
                Statement::Set(theirs) => mine.is_same(theirs),
                _ => false,
            },
        }
    }
}

impl Same for Script {
    fn is_same(&self, other: &Script) -> bool {
        self.within.get() == other.within.get()
            && self.statements.is_same(&other.statements)
            && self.end == other.end
    }
}
