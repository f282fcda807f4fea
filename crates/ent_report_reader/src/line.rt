//! A line of any sort.
ghost use Rattle.std.specs.Prelude.{IfOk};
ghost use Rattle.ent_report_reader.specs.Judging.{TellsWhether};
ghost use Rattle.ent_report_reader.specs.Taking.{TakesAbove, TakesBelow, TakesFree, TakesLine};

use crate::draft::Draft;
use crate::due::Due;
use ent_text::LineFault;
use ent_value::Refusal;
use std::alloc::{AllocError, Global};

/// Whether a line stands, by what its step says.
fn stands(judged: Result<(), Refusal<LineFault>>) -> Result<bool, AllocError>
    ensures { IfOk result (TellsWhether judged) }
{
    match judged {
        Ok(()) => Ok(true),
        Err(Refusal::Memory) => Err(AllocError),
        Err(Refusal::Fault(_)) => Ok(false),
    }
}

impl Draft {
    /// A line of the opening, or of the transactions and their answers.
    fn line_above(&mut self, alloc: Global, text: &[u8]) -> Result<bool, AllocError>
        ensures { IfOk result (λ taken. TakesAbove self.old text.now taken self.new) }
    {
        let opens = stands(self.opening(alloc, text))?;
        if opens {
            return Ok(true);
        }
        let tells = stands(self.tx(alloc, text))?;
        if tells {
            return Ok(true);
        }
        stands(self.answer(alloc, text))
    }

    /// A line of the joint answers, or of the tables at the end, or the last line.
    fn line_below(&mut self, alloc: Global, text: &[u8]) -> Result<bool, AllocError>
        ensures { IfOk result (λ taken. TakesBelow self.old text.now taken self.new) }
    {
        let joins = stands(self.joint(alloc, text))?;
        if joins {
            return Ok(true);
        }
        let shows = stands(self.table(alloc, text))?;
        if shows {
            return Ok(true);
        }
        stands(self.end(text))
    }

    /// A line where nothing of what stands above is due.
    fn free_line(&mut self, alloc: Global, text: &[u8]) -> Result<bool, AllocError>
        ensures { IfOk result (λ taken. TakesFree self.old text.now taken self.new) }
    {
        let above = self.line_above(alloc, text)?;
        if above {
            return Ok(true);
        }
        self.line_below(alloc, text)
    }

    /// Takes in a line, given without its end, where it can stand, and says whether it does. That of a script isn't
    /// taken: it stands with the script's lines alone.
    pub fn line(&mut self, alloc: Global, text: &[u8]) -> Result<bool, AllocError>
        ensures { IfOk result (λ taken. TakesLine self.old text.now taken self.new) }
    {
        match self.due {
            Due::Heading => stands(self.heading(text)),
            Due::OpeningRows { .. } => stands(self.opening_row(alloc, text)),
            Due::AnswerRows { .. } => stands(self.answer_row(alloc, text)),
            Due::Members { .. } => stands(self.member(alloc, text)),
            Due::TableRows { .. } => stands(self.table_row(alloc, text)),
            Due::Ended => Ok(false),
            Due::Free => self.free_line(alloc, text),
        }
    }
}
