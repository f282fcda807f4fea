//! Rows that stand as keys.
ghost use Rattle.std.specs.Prelude.{◌≡◌, ◌<◌, IfOk, Some, length, slice_get, List};
ghost use Rattle.ent_value.specs.Value.{kinds_of};
ghost use Rattle.ent_value.specs.declared.value.Value.{Value as Held};
ghost use Rattle.ent_page.specs.Key.{key_of, value_key};
ghost use Rattle.ent_page.specs.Read.{row_from, past_values};
ghost use Rattle.ent_page.specs.Rows.{IsKey};

use crate::cell::Cell;
use crate::reading::{decode, split_value};
use ent_value::{Kind, Row};
use std::alloc::{AllocError, Global};
use std::marker::Model;

/// A row where it stands as a key. Its cells are read in place, without memory. Contracts see the row.
#[derive(Drop)]
pub struct StoredRow<'a> {
    kinds: &'a [Kind],
    key: &'a [u8],
}

impl<'a> Model for StoredRow<'a> {
    ghost use Rattle.std.specs.Prelude.{List};
    ghost use Rattle.ent_value.specs.declared.value.Value.{Value as Held};
    ghost use Rattle.ent_page.specs.Read.{row_from};
    ghost use Rattle.ent_page.specs.Rows.{IsKey};

    ghost Value = { List Held };

    ghost view = { λ r. row_from r.kinds.now r.key.now };

    ghost invariant = { λ r. IsKey r.kinds.now r.key.now };
}

impl<'a> StoredRow<'a> {
    /// The row of these kinds that has this key.
    pub fn new(kinds: &'a [Kind], key: &'a [u8]) -> Self
        requires { IsKey kinds.now key.now }
        ensures { result ≡ row_from kinds.now key.now }
    {
        StoredRow { kinds, key }
    }

    /// How many cells there are.
    pub fn len(&self) -> usize
        ensures { result ≡ length self.now }
    {
        self.kinds.len()
    }

    /// The cell at an index, counted from 0.
    #[inline(always)]
    pub fn cell(&self, index: usize) -> Cell<'a>
        requires { index < length self.now }
        ensures { slice_get self.now index ≡ Some result }
    {
        let bytes = cell_bytes(self.kinds, self.key, index);
        Cell::new(self.kinds[index], bytes)
    }

    /// The row, in memory of its own.
    pub fn to_row(&self, alloc: Global) -> Result<Row, AllocError>
        ensures { IfOk result (λ row. row ≡ self.now) }
    {
        decode(alloc, self.kinds, self.key)
    }
}

/// What stands for the value at an index in the key of a row of these kinds.
fn cell_bytes<'a>(kinds: &[Kind], key: &'a [u8], index: usize) -> &'a [u8]
    requires { index < length kinds.now }
    ensures { (row : List Held) (value : Held) → kinds_of row ≡ kinds.now → key.now ≡ key_of row
        → slice_get row index ≡ Some value → result.now ≡ value_key value }
{
    let left = past_cells(&kinds[..index], key);
    if index + 1 == kinds.len() {
        return left;
    }
    let (bytes, _) = split_value(kinds[index], left);
    bytes
}

/// What follows the values of these kinds in a key.
fn past_cells<'a>(kinds: &[Kind], key: &'a [u8]) -> &'a [u8]
    ensures { result.now ≡ past_values kinds.now key.now }
{
    let mut left = key;
    for kind in kinds {
        let (_, rest) = split_value(*kind, left);
        left = rest;
    }
    left
}
