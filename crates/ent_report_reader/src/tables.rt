//! The lines of the tables at the end.
ghost use Rattle.std.specs.Prelude.{◌≡◌, ◌↔◌, IsTrue, IfOk, Some, length, slice_get};
ghost use Rattle.ent_value.specs.Name.{IsWord};
ghost use Rattle.ent_tree.specs.declared.declaration.Create.{Create};
ghost use Rattle.ent_book.specs.Report.{line};
ghost use Rattle.ent_history.specs.Draft.{on_last};
ghost use Rattle.ent_history.specs.Tables.{TableRowStands, TableStands, with_table_row};
ghost use Rattle.ent_report_reader.specs.Due.{TableTakes};
ghost use Rattle.ent_report_reader.specs.Judging.{Judges};

use crate::draft::Draft;
use crate::due::Due;
use crate::kinds::is_of_kinds;
use crate::lists::{is_behind, last, take_last};
use crate::reading::{row_line, table_line};
use ent_history::Shown;
use ent_text::LineFault;
use ent_value::{MOST_ROWS, Refusal, Row, Sequence};
use std::alloc::{AllocError, Global};

/// Puts a row behind those of the last table.
fn put_table_row(alloc: Global, tables: &mut Sequence<Shown>, row: Row) -> Result<(), AllocError>
    ensures { IfOk result (λ _. tables.new ≡ on_last (with_table_row row) tables.old) }
{
    if let Some(mut shown) = take_last(alloc, tables) {
        shown.rows.push(row)?;
        tables.push(shown)?;
    }
    Ok(())
}

impl Draft {
    /// The name of the table that stands next is one word.
    pub fn next_table_is_word(&self)
        ensures { (create : Create) → slice_get self.now.told.opening.tables (length self.now.told.tables) ≡ Some create
            → IsWord create.name.name }
    {
        if let Some(create) = self.opening.table(self.tables.len()) {
            create.name.name.as_bytes();
        }
    }

    /// The line of a table at the end: how many rows it has.
    pub fn table(&mut self, alloc: Global, text: &[u8]) -> Result<(), Refusal<LineFault>>
        ensures { Judges (TableStands self.old (line text.now)) self.old result self.new }
    {
        if !self.are_tables_next() {
            return Err(Refusal::Fault(LineFault::Misfit));
        }
        let Some(create) = self.opening.table(self.tables.len()) else {
            return Err(Refusal::Fault(LineFault::Misfit));
        };
        let count = table_line(&create.name.name, text)?;
        if count > MOST_ROWS as u64 {
            return Err(Refusal::Fault(LineFault::Misfit));
        }
        let name = create.name.name.copy(alloc)?;
        self.tables.push(Shown {
            name,
            rows: Sequence::new(alloc),
        })?;
        self.due = Due::of_table_rows(count);
        Ok(())
    }

    /// Whether a row can stand below those of the last table.
    fn table_takes(&self, row: &Row) -> bool
        ensures { IsTrue result ↔ TableTakes self.now.told row.now }
    {
        let Some(shown) = last(self.tables.as_slice()) else {
            return false;
        };
        let Some(create) = self.opening.table(self.tables.len() - 1) else {
            return false;
        };
        is_of_kinds(row.values(), create.columns.as_slice())
            && is_behind(shown.rows.as_slice(), row)
    }

    /// A row of the last table at the end.
    pub fn table_row(&mut self, alloc: Global, text: &[u8]) -> Result<(), Refusal<LineFault>>
        ensures { Judges (TableRowStands self.old (line text.now)) self.old result self.new }
    {
        let Some(more) = self.due.table_rows() else {
            return Err(Refusal::Fault(LineFault::Misfit));
        };
        let row = row_line(alloc, text)?;
        if !self.table_takes(&row) {
            return Err(Refusal::Fault(LineFault::Misfit));
        }
        put_table_row(alloc, &mut self.tables, row)?;
        self.due = Due::of_table_rows(more);
        Ok(())
    }
}
