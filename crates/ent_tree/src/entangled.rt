//! Entangled SELECT: an answer for its own script that depends on the answers of others.
ghost use Rattle.std.specs.Prelude.{◌≡◌};
ghost use Rattle.ent_tree.specs.Places.{term_place};

use crate::duplicate::Duplicate;
use crate::limits::MOST_PARTS;
use crate::operand::{Identifier, Test, ValueSpecification};
use crate::same::Same;
use crate::select::Select;
use ent_value::Limited;
use std::alloc::{AllocError, Global};

/// A known value, or a written variable, to which the answer gives a value.
#[derive(Drop)]
pub enum Term {
    Value(ValueSpecification),
    Variable(Identifier),
}

impl Term {
    /// Where the term stands.
    pub fn place(&self) -> usize
        ensures { result ≡ term_place self.now }
    {
        match self {
            Term::Value(value) => value.place(),
            Term::Variable(variable) => variable.place,
        }
    }
}

/// A term of the select list, and the host variable that is bound to its value after the answer.
#[derive(Drop)]
pub struct EntangledItem {
    pub term: Term,
    pub binds: Option<Identifier>,
}

/// Terms side by side, with or without parentheses.
#[derive(Drop)]
pub struct Tuple {
    /// Where its first token stands: the `(` where there is one, else the first term.
    pub place: usize,
    pub terms: Limited<Term, MOST_PARTS>,
}

/// A condition of an entangled statement.
#[derive(Drop)]
pub enum Condition {
    /// `tuple IN (SELECT ..)`: the tuple is a row of the result.
    InSelect(Tuple, Select),
    /// `tuple IN ANSWER relation`: a postcondition.
    InAnswer(Tuple, Identifier),
    Test(Test<Term>),
}

/// `SELECT items INTO ANSWER relation, ANSWER relation .. WHERE conditions CHOOSE 1`
#[derive(Drop)]
pub struct Entangled {
    pub items: Limited<EntangledItem, MOST_PARTS>,
    /// Where INTO stands.
    pub place: usize,
    pub relations: Limited<Identifier, MOST_PARTS>,
    pub conditions: Limited<Condition, MOST_PARTS>,
}

impl Duplicate for Term {
    fn copy(&self, alloc: Global) -> Result<Self, AllocError> {
        match self {
            Term::Value(value) => Ok(Term::Value(value.copy(alloc)?)),
            Term::Variable(variable) => Ok(Term::Variable(variable.copy(alloc)?)),
        }
    }
}

impl Duplicate for EntangledItem {
    fn copy(&self, alloc: Global) -> Result<Self, AllocError> {
        Ok(EntangledItem {
            term: self.term.copy(alloc)?,
            binds: self.binds.copy(alloc)?,
        })
    }
}

impl Duplicate for Tuple {
    fn copy(&self, alloc: Global) -> Result<Self, AllocError> {
        Ok(Tuple {
            place: self.place,
            terms: self.terms.copy(alloc)?,
        })
    }
}

impl Duplicate for Condition {
    fn copy(&self, alloc: Global) -> Result<Self, AllocError> {
        match self {
            Condition::InSelect(tuple, select) => Ok(Condition::InSelect(
                tuple.copy(alloc)?,
                select.copy(alloc)?,
            )),
            Condition::InAnswer(tuple, relation) => Ok(Condition::InAnswer(
                tuple.copy(alloc)?,
                relation.copy(alloc)?,
            )),
            Condition::Test(test) => Ok(Condition::Test(test.copy(alloc)?)),
        }
    }
}

impl Duplicate for Entangled {
    fn copy(&self, alloc: Global) -> Result<Self, AllocError> {
        Ok(Entangled {
            items: self.items.copy(alloc)?,
            place: self.place,
            relations: self.relations.copy(alloc)?,
            conditions: self.conditions.copy(alloc)?,
        })
    }
}

impl Same for Term {
    fn is_same(&self, other: &Term) -> bool {
        match self {
            Term::Value(mine) => match other {
                Term::Value(theirs) => mine.is_same(theirs),
                _ => false,
            },
            Term::Variable(mine) => match other {
                Term::Variable(theirs) => mine.is_same(theirs),
                _ => false,
            },
        }
    }
}

impl Same for EntangledItem {
    fn is_same(&self, other: &EntangledItem) -> bool {
        self.term.is_same(&other.term) && self.binds.is_same(&other.binds)
    }
}

impl Same for Tuple {
    fn is_same(&self, other: &Tuple) -> bool {
        self.place == other.place && self.terms.is_same(&other.terms)
    }
}

impl Same for Condition {
    fn is_same(&self, other: &Condition) -> bool {
        match self {
            Condition::InSelect(tuple, select) => match other {
                Condition::InSelect(first, second) => tuple.is_same(first)
                    && select.is_same(second),
                _ => false,
            },
            Condition::InAnswer(tuple, relation) => match other {
                Condition::InAnswer(first, second) => tuple.is_same(first)
                    && relation.is_same(second),
                _ => false,
            },
            Condition::Test(mine) => match other {
                Condition::Test(theirs) => mine.is_same(theirs),
                _ => false,
            },
        }
    }
}

impl Same for Entangled {
    fn is_same(&self, other: &Entangled) -> bool {
        self.items.is_same(&other.items)
            && self.place == other.place
            && self.relations.is_same(&other.relations)
            && self.conditions.is_same(&other.conditions)
    }
}
