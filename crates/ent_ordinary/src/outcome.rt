//! What a statement comes to.
ghost use Rattle.std.specs.Prelude.{◌≡◌, IfOk};

use ent_rel::Delta;
use ent_semantics::Failure;
use ent_tree::Duplicate;
use ent_value::{Row, Sequence, Value};
use std::alloc::{AllocError, Global};

/// What a statement comes to over its tables, which stay as they are.
#[derive(Drop)]
pub enum Outcome {
    /// The rows of a SELECT, ascending.
    Rows(Sequence<Row>),
    /// How many rows an INSERT puts in, or a DELETE or an UPDATE concerns, and what it makes of its table.
    Changed { count: u64, delta: Delta },
    /// What a SET binds its host variable to.
    Value(Value),
    /// Why the statement can't be carried out.
    Fault(Failure),
}

impl Outcome {
    pub fn copy(&self, alloc: Global) -> Result<Self, AllocError>
        ensures { IfOk result (λ copy. copy ≡ self.now) }
    {
        match self {
            Outcome::Rows(rows) => Ok(Outcome::Rows(rows.copy(alloc)?)),
            Outcome::Changed { count, delta } => Ok(Outcome::Changed {
                count: *count,
                delta: delta.copy(alloc)?,
            }),
            Outcome::Value(value) => Ok(Outcome::Value(value.copy(alloc)?)),
            Outcome::Fault(failure) => Ok(Outcome::Fault(*failure)),
        }
    }
}
