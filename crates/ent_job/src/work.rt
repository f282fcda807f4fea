//! Work of transactions: statements at their places.
use crate::single::Single;
use ent_match::Posted;
use ent_tree::{Duplicate, Same};
use ent_value::Sequence;
use std::alloc::{AllocError, Global};

/// What there is to do.
#[derive(Drop)]
pub enum Work {
    /// A statement of one transaction, alone.
    One(Single),
    /// Posted statements, which are to be answered together, by number of their transactions.
    Joint(Sequence<Posted>),
}

impl Duplicate for Work {
    fn copy(&self, alloc: Global) -> Result<Self, AllocError> {
        match self {
            Work::One(single) => Ok(Work::One(single.copy(alloc)?)),
            Work::Joint(asked) => Ok(Work::Joint(asked.copy(alloc)?)),
        }
    }
}

impl Same for Work {
    fn is_same(&self, other: &Work) -> bool {
        match self {
            Work::One(mine) => match other {
                Work::One(theirs) => mine.is_same(theirs),
                _ => false,
            },
            Work::Joint(mine) => match other {
                Work::Joint(theirs) => mine.is_same(theirs),
                _ => false,
            },
        }
    }
}
