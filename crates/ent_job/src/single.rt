//! Statements of transactions, to be carried out alone.
ghost use Rattle.std.specs.Prelude.{◌≡◌};

use ent_group::Tx;
use ent_semantics::Statement;
use ent_tree::{Duplicate, Same};
use ent_value::Value;
use std::alloc::{AllocError, Global};
use std::marker::Model;

/// A closed ordinary statement at a place of a transaction, in one of its attempts.
#[derive(Drop)]
pub struct Single {
    tx: Tx,
    attempt: u64,
    place: u64,
    statement: Statement<Value>,
}

impl Model for Single {
    ghost use Rattle.ent_protocol.specs.Job.{Single as Work};

    ghost Value = { Work };

    ghost view = { λ w. record { tx = w.tx; attempt = w.attempt; place = w.place; statement = w.statement } };
}

impl Single {
    pub fn new(tx: Tx, attempt: u64, place: u64, statement: Statement<Value>) -> Self
        ensures { result ≡ record { tx = tx; attempt = attempt; place = place; statement = statement } }
    {
        Single {
            tx,
            attempt,
            place,
            statement,
        }
    }

    /// The transaction's number.
    pub fn tx(&self) -> Tx
        ensures { result ≡ self.now.tx }
    {
        self.tx
    }

    /// Which of the transaction's attempts it is.
    pub fn attempt(&self) -> u64
        ensures { result ≡ self.now.attempt }
    {
        self.attempt
    }

    /// The statement's place in its script.
    pub fn place(&self) -> u64
        ensures { result ≡ self.now.place }
    {
        self.place
    }

    pub fn statement(&self) -> &Statement<Value>
        ensures { result.now ≡ self.now.statement }
    {
        &self.statement
    }
}

impl Duplicate for Single {
    fn copy(&self, alloc: Global) -> Result<Self, AllocError> {
        let statement = self.statement.copy(alloc)?;
        Ok(Single {
            tx: self.tx,
            attempt: self.attempt,
            place: self.place,
            statement,
        })
    }
}

impl Same for Single {
    fn is_same(&self, other: &Single) -> bool {
        self.tx == other.tx
            && self.attempt == other.attempt
            && self.place == other.place
            && self.statement.is_same(&other.statement)
    }
}
