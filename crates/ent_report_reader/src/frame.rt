//! The first line and the last.
ghost use Rattle.std.specs.Prelude.{◌≡◌};
ghost use Rattle.ent_book.specs.Report.{line};
ghost use Rattle.ent_history.specs.Opening.{HeadingStands};
ghost use Rattle.ent_history.specs.Tables.{EndStands};
ghost use Rattle.ent_report_reader.specs.Judging.{Judges};

use crate::draft::Draft;
use crate::due::Due;
use ent_text::LineFault;
use ent_value::Refusal;

impl Draft {
    /// The heading, `report 2`.
    pub fn heading(&mut self, text: &[u8]) -> Result<(), Refusal<LineFault>>
        ensures { Judges (HeadingStands self.old (line text.now)) self.old result self.new }
    {
        if !self.due.is_heading() {
            return Err(Refusal::Fault(LineFault::Misfit));
        }
        if text != b"report 2".as_slice() {
            return Err(Refusal::Fault(LineFault::Misfit));
        }
        self.due = Due::Free;
        Ok(())
    }

    /// The last line, `end`.
    pub fn end(&mut self, text: &[u8]) -> Result<(), Refusal<LineFault>>
        ensures { Judges (EndStands self.old (line text.now)) self.old result self.new }
    {
        if !self.are_tables_next() {
            return Err(Refusal::Fault(LineFault::Misfit));
        }
        if self.tables.len() != self.opening.table_count() {
            return Err(Refusal::Fault(LineFault::Misfit));
        }
        if text != b"end".as_slice() {
            return Err(Refusal::Fault(LineFault::Misfit));
        }
        self.due = Due::Ended;
        Ok(())
    }
}
