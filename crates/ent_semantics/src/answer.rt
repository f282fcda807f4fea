//! What statements answer.
ghost use Rattle.std.specs.Prelude.{◌≡◌};
ghost use Rattle.ent_semantics.specs.Failure.{failure_name};

use ent_tree::Same;
use ent_value::{Name, Row, Sequence, Value};

/// A row of an answer relation.
pub struct Fact {
    pub relation: Name,
    pub values: Row,
}

impl Drop for Fact {
    fn drop(self) {
        let Fact {
            relation: _relation,
            values: _values,
        } = self;
    }
}

/// What a statement answers.
pub enum Answer {
    /// How many rows an INSERT put in, or a DELETE or an UPDATE concerned.
    Count(u64),
    /// What a SET bound its host variable to.
    Value(Value),
    /// The rows of a SELECT, ascending.
    Rows(Sequence<Row>),
    /// The heads of an entangled statement, one for each answer relation, in order of the text.
    Heads(Sequence<Fact>),
}

impl Drop for Answer {
    fn drop(self) {
        match self {
            Answer::Count(_count) => {}
            Answer::Value(_value) => {}
            Answer::Rows(_rows) => {}
            Answer::Heads(_heads) => {}
        }
    }
}

/// Why a statement can't be carried out; its transaction fails.
#[derive(Clone, Copy, Debug, PartialEq, Eq)]
pub enum Failure {
    /// A sum or a difference is beyond 64 bits.
    Overflow,
    /// More rows than [`ent_value::MOST_ROWS`] would stand in a table.
    TableFull,
}

impl Failure {
    /// The short name of a failure, in reports and in traces: `F1` or `F2`.
    pub fn name(self) -> &'static str
        ensures { result.now ≡ failure_name self }
    {
        match self {
            Failure::Overflow => "F1",
            Failure::TableFull => "F2",
        }
    }
}

impl Same for Fact {
    fn is_same(&self, other: &Fact) -> bool {
        self.relation.is_same(&other.relation) && self.values.is_same(&other.values)
    }
}

impl Same for Answer {
    fn is_same(&self, other: &Answer) -> bool {
        match self {
            Answer::Count(mine) => match other {
                Answer::Count(theirs) => mine == theirs,
                _ => false,
            },
            Answer::Value(mine) => match other {
                Answer::Value(theirs) => mine == theirs,
                _ => false,
            },
            Answer::Rows(mine) => match other {
                Answer::Rows(theirs) => mine.is_same(theirs),
                _ => false,
            },
            Answer::Heads(mine) => match other {
                Answer::Heads(theirs) => mine.is_same(theirs),
                _ => false,
            },
        }
    }
}
