//! The lines of the opening.
ghost use Rattle.std.specs.Prelude.{◌↔◌, IsTrue};
ghost use Rattle.ent_book.specs.Report.{line};
ghost use Rattle.ent_history.specs.Opening.{OpeningRowStands, OpeningStands};
ghost use Rattle.ent_report_reader.specs.Judging.{Judges};
ghost use Rattle.ent_report_reader.specs.Due.{OpeningIsNext};

use crate::draft::Draft;
use crate::due::Due;
use crate::reading::{opening_line, row_line};
use ent_text::LineFault;
use ent_tree::MOST_TABLES;
use ent_value::Refusal;
use std::alloc::Global;

impl Draft {
    /// Whether a table can stand next, which one aside.
    fn is_opening_next(&self) -> bool
        ensures next { IsTrue result ↔ OpeningIsNext self.now }
    {
        self.due.is_free()
            && self.scripts.is_empty()
            && self.transactions.is_empty()
            && self.joint_answers.is_empty()
            && self.tables.is_empty()
            && self.opening.table_count() < MOST_TABLES
    }

    /// The line of a table of the opening: its name, its columns, and how many rows follow.
    pub fn opening(&mut self, alloc: Global, text: &[u8]) -> Result<(), Refusal<LineFault>>
        ensures { Judges (OpeningStands self.old (line text.now)) self.old result self.new }
    {
        if !self.is_opening_next() {
            return Err(Refusal::Fault(LineFault::Misfit));
        }
        let (create, count) = opening_line(alloc, text)?;
        if !self.opening.opens(&create, count) {
            drop(create);
            return Err(Refusal::Fault(LineFault::Misfit));
        }
        self.opening.open(alloc, create)?;
        self.due = Due::of_opening_rows(count);
        Ok(())
    }

    /// A row of the last table of the opening.
    pub fn opening_row(&mut self, alloc: Global, text: &[u8]) -> Result<(), Refusal<LineFault>>
        ensures { Judges (OpeningRowStands self.old (line text.now)) self.old result self.new }
    {
        let Some(more) = self.due.opening_rows() else {
            return Err(Refusal::Fault(LineFault::Misfit));
        };
        let row = row_line(alloc, text)?;
        if !self.opening.takes(&row) {
            return Err(Refusal::Fault(LineFault::Misfit));
        }
        self.opening.push_row(alloc, row)?;
        self.due = Due::of_opening_rows(more);
        Ok(())
    }
}
