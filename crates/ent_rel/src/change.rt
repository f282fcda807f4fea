//! Changes of a table.
ghost use Rattle.std.specs.Prelude.{◌≡◌, IfOk};

use ent_tree::Duplicate;
use ent_value::{Row, Sequence};
use std::alloc::{AllocError, Global};

/// What a change takes out of a table and then puts in.
#[derive(Drop)]
pub struct Delta {
    pub removed: Sequence<Row>,
    pub added: Sequence<Row>,
}

impl Delta {
    pub fn copy(&self, alloc: Global) -> Result<Delta, AllocError>
        ensures { IfOk result (λ copy. copy ≡ self.now) }
    {
        Ok(Delta {
            removed: self.removed.copy(alloc)?,
            added: self.added.copy(alloc)?,
        })
    }
}
