//! Lists of parts.
use crate::part::Part;
use crate::variable::BoundVariable;
use ent_value::{Limited, Name};
use std::alloc::{AllocError, Global};

impl<T: Part + Drop, const LIMIT: usize> Part for Limited<T, LIMIT> {
    ghost use Rattle.std.specs.Prelude.{map};
    ghost use Rattle.std.specs.List.{flat_map};

    ghost values = { flat_map T.values };

    ghost over = { λ making. map (T.over making) };

    fn uses(&self, name: &Name) -> bool {
        for part in self.as_slice() {
            if part.uses(name) {
                return true;
            }
        }
        false
    }

    fn bound(&self, alloc: Global, variables: &[BoundVariable]) -> Result<Self, AllocError> {
        // The limit of the parts is that of the copies.
        let mut copies = Limited::with_capacity(alloc, self.len())?;
        let parts = self.as_slice();
        for part in parts {
            copies.push(part.bound(alloc, variables)?)?;
        }
        Ok(copies)
    }
}
