//! Tables, and the rows that stand in them at first.
ghost use Rattle.std.specs.Prelude.{◌≡◌, IfOk, map};

use crate::duplicate::Duplicate;
use crate::limits::{MOST_OPENING_ROWS, MOST_PARTS, MOST_TABLES};
use crate::operand::{Identifier, Literal};
use crate::same::Same;
use ent_value::{Kind, Limited, Row};
use std::alloc::{AllocError, Global};

/// A column that is declared.
#[derive(Drop)]
pub struct Column {
    pub name: Identifier,
    pub kind: Kind,
}

/// `CREATE TABLE name (columns);`
#[derive(Drop)]
pub struct Create {
    pub name: Identifier,
    pub columns: Limited<Column, MOST_PARTS>,
}

/// `INSERT INTO table VALUES (literals);` before the scripts.
#[derive(Drop)]
pub struct OpeningRow {
    pub table: Identifier,
    /// Where the `(` behind VALUES stands.
    pub place: usize,
    pub values: Limited<Literal, MOST_PARTS>,
}

impl OpeningRow {
    /// The row that the literals make. It takes the memory of a new row.
    pub fn row(&self, alloc: Global) -> Result<Row, AllocError>
        ensures { IfOk result (λ made. made ≡ map (λ literal. literal.value) self.now.values) }
    {
        let mut values = Vec::with_capacity(alloc, self.values.len())?;
        for literal in self.values.as_slice() {
            values.push(literal.value.copy(alloc)?)?;
        }
        Ok(Row::from_vec(values))
    }
}

/// The tables, and the rows that stand in them at first.
pub struct Opening {
    pub tables: Limited<Create, MOST_TABLES>,
    pub rows: Limited<OpeningRow, MOST_OPENING_ROWS>,
}

impl Drop for Opening {
    fn drop(self) {
        let Opening {
            tables: _tables,
            rows: _rows,
        } = self;
    }
}

impl Duplicate for Column {
    fn copy(&self, alloc: Global) -> Result<Self, AllocError> {
        Ok(Column {
            name: self.name.copy(alloc)?,
            kind: self.kind,
        })
    }
}

impl Duplicate for Create {
    fn copy(&self, alloc: Global) -> Result<Self, AllocError> {
        Ok(Create {
            name: self.name.copy(alloc)?,
            columns: self.columns.copy(alloc)?,
        })
    }
}

impl Duplicate for OpeningRow {
    fn copy(&self, alloc: Global) -> Result<Self, AllocError> {
        Ok(OpeningRow {
            table: self.table.copy(alloc)?,
            place: self.place,
            values: self.values.copy(alloc)?,
        })
    }
}

impl Duplicate for Opening {
    fn copy(&self, alloc: Global) -> Result<Self, AllocError> {
        Ok(Opening {
            tables: self.tables.copy(alloc)?,
            rows: self.rows.copy(alloc)?,
        })
    }
}

impl Same for Column {
    fn is_same(&self, other: &Column) -> bool {
        self.name.is_same(&other.name) && self.kind == other.kind
    }
}

impl Same for Create {
    fn is_same(&self, other: &Create) -> bool {
        self.name.is_same(&other.name) && self.columns.is_same(&other.columns)
    }
}

impl Same for OpeningRow {
    fn is_same(&self, other: &OpeningRow) -> bool {
        self.table.is_same(&other.table)
            && self.place == other.place
            && self.values.is_same(&other.values)
    }
}

impl Same for Opening {
    fn is_same(&self, other: &Opening) -> bool {
        self.tables.is_same(&other.tables) && self.rows.is_same(&other.rows)
    }
}
