//! Values that are known before rows are read.
ghost use Rattle.std.specs.Prelude.{◌≡◌, IfOk};

use crate::cell::Cell;
use crate::key::Key;
use ent_value::{Kind, Value};
use std::alloc::{AllocError, Global};
use std::marker::Model;

/// A value that was made into a key once, so that it compares with the cells of any number of rows at no further cost.
/// Contracts see the value.
#[derive(Drop)]
pub struct KnownValue {
    kind: Kind,
    key: Key,
}

impl Model for KnownValue {
    ghost use Rattle.ent_value.specs.declared.value.Value.{Value as Held};
    ghost use Rattle.ent_page.specs.Read.{value_from};
    ghost use Rattle.ent_page.specs.Cells.{IsCell};

    ghost Value = { Held };

    ghost view = { λ v. value_from v.kind v.key };

    ghost invariant = { λ v. IsCell v.kind v.key };
}

impl KnownValue {
    pub fn of(alloc: Global, value: &Value) -> Result<Self, AllocError>
        ensures { IfOk result (λ known. known ≡ value.now) }
    {
        Ok(KnownValue {
            kind: value.kind(),
            key: Key::of_value(alloc, value)?,
        })
    }

    pub fn as_cell(&self) -> Cell<'_>
        ensures { result ≡ self.now }
    {
        Cell::new(self.kind, self.key.as_bytes())
    }
}
