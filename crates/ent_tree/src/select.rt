//! SELECT over tables.
use crate::boxed::Boxed;
use crate::duplicate::Duplicate;
use crate::limits::{MOST_PARTS, MOST_SOURCES};
use crate::operand::{Identifier, Operand, Test};
use crate::same::Same;
use ent_value::Limited;
use std::alloc::{AllocError, Global};

/// A table that a SELECT reads, and the name that it goes by there if it isn't its own.
#[derive(Drop)]
pub struct Source {
    pub table: Identifier,
    pub alias: Option<Boxed<Identifier>>,
}

/// What a SELECT shows: every column, source by source, or these items.
#[derive(Drop)]
pub enum Items {
    All,
    Listed(Limited<Operand, MOST_PARTS>),
}

/// `SELECT items FROM sources WHERE tests`
#[derive(Drop)]
pub struct Select {
    pub items: Items,
    pub sources: Limited<Source, MOST_SOURCES>,
    pub tests: Limited<Test<Operand>, MOST_PARTS>,
}

impl Duplicate for Source {
    fn copy(&self, alloc: Global) -> Result<Self, AllocError> {
        Ok(Source {
            table: self.table.copy(alloc)?,
            alias: self.alias.copy(alloc)?,
        })
    }
}

impl Duplicate for Items {
    fn copy(&self, alloc: Global) -> Result<Self, AllocError> {
        match self {
            Items::All => Ok(Items::All),
            Items::Listed(listed) => Ok(Items::Listed(listed.copy(alloc)?)),
        }
    }
}

impl Duplicate for Select {
    fn copy(&self, alloc: Global) -> Result<Self, AllocError> {
        Ok(Select {
            items: self.items.copy(alloc)?,
            sources: self.sources.copy(alloc)?,
            tests: self.tests.copy(alloc)?,
        })
    }
}

impl Same for Source {
    fn is_same(&self, other: &Source) -> bool {
        self.table.is_same(&other.table) && self.alias.is_same(&other.alias)
    }
}

impl Same for Items {
    fn is_same(&self, other: &Items) -> bool {
        match self {
            Items::All => matches!(other, Items::All),
            Items::Listed(mine) => match other {
                Items::Listed(theirs) => mine.is_same(theirs),
                _ => false,
            },
        }
    }
}

impl Same for Select {
    fn is_same(&self, other: &Select) -> bool {
        self.items.is_same(&other.items)
            && self.sources.is_same(&other.sources)
            && self.tests.is_same(&other.tests)
    }
}
