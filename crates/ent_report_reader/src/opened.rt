//! The opening as far as it is told.
ghost use Rattle.std.specs.Prelude.{◌≡◌, ◌↔◌, ◌<◌, ◌≤◌, ◌++◌, ◌∷◌, [], IfOk, IsTrue, OnErr, Some, length, slice_get};
ghost use Rattle.std.specs.Option.{option_copied};
ghost use Rattle.ent_tree.specs.declared.declaration.Create.{Create};
ghost use Rattle.ent_tree.specs.declared.limits.TheConstants.{MOST_OPENING_ROWS, MOST_PARTS, MOST_TABLES};
ghost use Rattle.ent_form.specs.Catalogue.{schemas_of};
ghost use Rattle.ent_history.specs.Opening.{NamesAscend, with_row, with_table};
ghost use Rattle.ent_history.specs.Told.{opening_row};
ghost use Rattle.ent_history.specs.Draft.{last_of};
ghost use Rattle.ent_report_reader.specs.Opened.{EndsBelow, OpeningTakes, Opens, literals_of};

use crate::kinds::is_of_kinds;
use crate::lists::{last, take_last};
use ent_form::{Catalogue, table_schema};
use ent_tree::{
    Create, Identifier, Literal, MOST_OPENING_ROWS, MOST_PARTS, MOST_TABLES, Opening, OpeningRow,
};
use ent_value::{Limited, Row, Sequence};
use std::alloc::{AllocError, Global};
use std::marker::Model;

/// The tables of an opening and its rows, as far as they are told.
#[derive(Drop)]
pub(crate) struct Opened {
    tables: Limited<Create, MOST_TABLES>,
    rows: Limited<OpeningRow, MOST_OPENING_ROWS>,
    /// The last row of the last table, where it has one.
    last_row: Option<Row>,
    /// The tables, as statements are resolved against them.
    catalogue: Catalogue,
}

impl Model for Opened {
    ghost use Rattle.ent_tree.specs.declared.declaration.Opening.{Opening as Told};
    ghost use Rattle.std.specs.Prelude.{◌≡◌};
    ghost use Rattle.ent_form.specs.Catalogue.{schemas_of};
    ghost use Rattle.ent_report_reader.specs.Opened.{IsInOrder};

    ghost Value = { Told };

    ghost view = { λ o. record { tables = o.tables; rows = o.rows } };

    ghost invariant = { λ o.
        IsInOrder o.tables o.rows o.last_row × (o.catalogue.tables ≡ schemas_of o.tables) };
}

/// The values of a row, as they stand in an opening.
fn literals_of(alloc: Global, row: &Row) -> Result<Limited<Literal, MOST_PARTS>, AllocError>
    requires { length row.now ≤ MOST_PARTS }
    ensures { IfOk result (λ literals. literals ≡ literals_of row.now) }
{
    let mut literals = Limited::new(alloc);
    for value in row.values() {
        literals.push(Literal {
            value: value.copy(alloc)?,
            place: 0,
        })?;
    }
    Ok(literals)
}

/// A row of a table, as it stands in an opening.
fn row_under(alloc: Global, create: &Create, row: &Row) -> Result<OpeningRow, AllocError>
    requires { length row.now ≤ MOST_PARTS }
    ensures { IfOk result (λ opened. opened ≡ opening_row create.now.name.name row.now) }
{
    Ok(OpeningRow {
        table: Identifier {
            name: create.name.name.copy(alloc)?,
            place: 0,
        },
        place: 0,
        values: literals_of(alloc, row)?,
    })
}

/// Whether a row comes behind the last one, where there is one.
fn is_behind(last_row: &Option<Row>, row: &Row) -> bool
    ensures { IsTrue result ↔ EndsBelow last_row.now row.now }
{
    match last_row {
        Some(last) => last.cmp(row).is_lt(),
        None => true,
    }
}

/// Whether a table's name comes behind that of the last table, where there is one.
fn comes_behind(tables: &[Create], create: &Create) -> bool
    ensures { IsTrue result ↔ NamesAscend tables.now create.now }
{
    match last(tables) {
        Some(last) => last.name.name.cmp(&create.name.name).is_lt(),
        None => true,
    }
}

impl Opened {
    /// No table yet.
    pub(crate) fn new(alloc: Global) -> Self
        ensures { result ≡ record { tables = []; rows = [] } }
    {
        Opened {
            tables: Limited::new(alloc),
            rows: Limited::new(alloc),
            last_row: None,
            catalogue: Catalogue {
                tables: Sequence::new(alloc),
            },
        }
    }

    pub(crate) fn into_opening(self) -> Opening
        ensures { result ≡ self }
    {
        let Opened {
            tables,
            rows,
            last_row: _last_row,
            catalogue: _catalogue,
        } = self;
        Opening { tables, rows }
    }

    /// The tables, as statements are resolved against them.
    pub(crate) fn catalogue(&self) -> &Catalogue
        ensures { result.now.tables ≡ schemas_of self.now.tables }
    {
        &self.catalogue
    }

    pub(crate) fn table_count(&self) -> usize
        ensures { result ≡ length self.now.tables }
    {
        self.tables.len()
    }

    /// The table at an index, counted from 0.
    pub(crate) fn table(&self, index: usize) -> Option<&Create>
        ensures { option_copied result ≡ slice_get self.now.tables index }
    {
        self.tables.get(index)
    }

    /// Whether a row can stand below those of the last table.
    pub(crate) fn takes(&self, row: &Row) -> bool
        ensures { IsTrue result ↔ OpeningTakes self.now row.now }
    {
        let Some(create) = last(self.tables.as_slice()) else {
            return false;
        };
        is_of_kinds(row.values(), create.columns.as_slice()) && is_behind(&self.last_row, row)
    }

    /// Puts a row behind those of the last table, where there is one.
    pub(crate) fn push_row(&mut self, alloc: Global, row: Row) -> Result<(), AllocError>
        requires room { length self.old.rows < MOST_OPENING_ROWS }
        requires takes { OpeningTakes self.old row }
        ensures ok { IfOk result (λ _. (create : Create) → last_of self.old.tables ≡ Some create
            → self.new ≡ with_row create row self.old) }
        ensures err { OnErr result (self.new ≡ self.old) }
    {
        let Some(create) = last(self.tables.as_slice()) else {
            return Ok(());
        };
        let _limit = create.columns.len();
        let opened = row_under(alloc, create, &row)?;
        self.rows.push(opened)?;
        self.last_row = Some(row);
        Ok(())
    }

    /// Whether a table with so many rows can stand below those above.
    pub(crate) fn opens(&self, create: &Create, count: u64) -> bool
        ensures { IsTrue result ↔ Opens self.now create.now count }
    {
        let room = MOST_OPENING_ROWS - self.rows.len();
        comes_behind(self.tables.as_slice(), create) && count <= room as u64
    }

    /// Opens a table whose name comes behind those above.
    pub(crate) fn open(&mut self, alloc: Global, create: Create) -> Result<(), AllocError>
        requires room { length self.old.tables < MOST_TABLES }
        requires ascends { NamesAscend self.old.tables create }
        ensures ok { IfOk result (λ _. self.new ≡ with_table create self.old) }
        ensures err { OnErr result (self.new ≡ self.old) }
    {
        self.catalogue.tables.push(table_schema(alloc, &create)?)?;
        match self.tables.push(create) {
            Ok(()) => {
                self.last_row = None;
                Ok(())
            }
            Err(_) => {
                take_last(alloc, &mut self.catalogue.tables);
                Err(AllocError)
            }
        }
    }
}
