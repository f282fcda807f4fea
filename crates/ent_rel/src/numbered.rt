//! Tables under their numbers.
ghost use Rattle.std.specs.Prelude.{◌≡◌};
ghost use Rattle.std.specs.Arc.{arc_value};
ghost use Rattle.ent_rel.specs.Numbered.{relation_of};

use crate::table::Table;
use ent_tree::{Duplicate, Same};
use std::alloc::{AllocError, Global};
use std::marker::Model;
use std::sync::Arc;

/// A table as it stands, and its number. Contracts see the number, the kinds and the rows.
pub struct NumberedTable {
    number: usize,
    table: Arc<Table>,
}

impl Drop for NumberedTable {
    fn drop(self) {
        let NumberedTable {
            number: _number,
            table: _table,
        } = self;
    }
}

impl Model for NumberedTable {
    ghost use Rattle.std.specs.Arc.{arc_value};
    ghost use Rattle.std.specs.Coded.{codes};
    ghost use Rattle.ent_rel.specs.Numbered.{Numbered};
    ghost use Rattle.ent_rel.specs.Relation.{coded_rows};

    ghost Value = { Numbered };

    ghost coded = { Prim.hlevel (codes, coded_rows) };

    ghost view = { λ t. record {
      table = t.number;
      kinds = (arc_value t.table).kinds;
      rows = (arc_value t.table).rows;
    } };
}

impl NumberedTable {
    /// A table under its number.
    pub fn new(number: usize, table: Arc<Table>) -> Self
        ensures number { result.table ≡ number }
        ensures table { relation_of result ≡ arc_value table }
    {
        NumberedTable { number, table }
    }

    /// The table's number.
    pub fn number(&self) -> usize
        ensures { result ≡ self.now.table }
    {
        self.number
    }

    /// The table, which is shared.
    pub fn table(&self) -> &Arc<Table>
        ensures { arc_value result.now ≡ relation_of self.now }
    {
        &self.table
    }
}

impl Duplicate for NumberedTable {
    fn copy(&self, _alloc: Global) -> Result<Self, AllocError> {
        Ok(NumberedTable {
            number: self.number,
            table: self.table.clone()?,
        })
    }
}

impl Same for NumberedTable {
    fn is_same(&self, other: &NumberedTable) -> bool {
        self.number == other.number && self.table.is_same(&other.table)
    }
}
