//! The lines of transactions, and of their answers.
ghost use Rattle.std.specs.Prelude.{◌≡◌, ◌<◌, ◌≤◌, ◌↔◌, IfSome, IsTrue, length};
ghost use Rattle.std.specs.Option.{option_copied};
ghost use Rattle.ent_tree.specs.declared.limits.TheConstants.{MOST_SCRIPTS, MOST_STATEMENTS};
ghost use Rattle.ent_book.specs.Report.{line};
ghost use Rattle.ent_history.specs.Draft.{answer_due};
ghost use Rattle.ent_history.specs.Answers.{AnswerRowStands, AnswerStands, TxStands, answers_so_far};
ghost use Rattle.ent_report_reader.specs.Due.{TxIsNext};
ghost use Rattle.ent_report_reader.specs.Judging.{Judges};

use crate::answers::answer_line;
use crate::draft::Draft;
use crate::due::Due;
use crate::lists::is_next;
use crate::reading::{row_line, tx_line};
use crate::told::{answer_due, answer_takes, answers_so_far, put_answer, put_answer_row};
use ent_history::Told;
use ent_text::LineFault;
use ent_tree::Statement;
use ent_value::{Refusal, Sequence};
use std::alloc::Global;

impl Draft {
    fn is_tx_next(&self) -> bool
        ensures next { IsTrue result ↔ TxIsNext self.now }
        ensures limit { length self.now.told.scripts ≤ MOST_SCRIPTS }
    {
        let scripts = self.scripts.len();
        self.due.is_free()
            && self.joint_answers.is_empty()
            && self.tables.is_empty()
            && self.transactions.len() < scripts
            && answer_due(self.scripts.as_slice(), self.transactions.as_slice()).is_none()
    }

    /// The line of a transaction: its number and its fate.
    pub fn tx(&mut self, alloc: Global, text: &[u8]) -> Result<(), Refusal<LineFault>>
        ensures { Judges (TxStands self.old (line text.now)) self.old result self.new }
    {
        if !self.is_tx_next() {
            return Err(Refusal::Fault(LineFault::Misfit));
        }
        let (number, fate) = tx_line(text)?;
        if !is_next(number, self.transactions.len()) {
            return Err(Refusal::Fault(LineFault::Misfit));
        }
        self.transactions.push(Told {
            fate,
            answers: Sequence::new(alloc),
        })?;
        Ok(())
    }

    /// The statement whose answer is due.
    fn statement_due(&self) -> Option<&Statement>
        ensures due { option_copied result ≡ answer_due self.now.told.scripts self.now.told.transactions }
        ensures limit { IfSome result (λ _. answers_so_far self.now.told.transactions < MOST_STATEMENTS) }
    {
        answer_due(self.scripts.as_slice(), self.transactions.as_slice())
    }

    /// How many answers the last transaction has.
    fn answer_count(&self) -> usize
        ensures { result ≡ answers_so_far self.now.told.transactions }
    {
        answers_so_far(self.transactions.as_slice())
    }

    /// The line of an answer: its statement's place, and what was answered, of that statement's sort.
    pub fn answer(&mut self, alloc: Global, text: &[u8]) -> Result<(), Refusal<LineFault>>
        ensures { Judges (AnswerStands self.old (line text.now)) self.old result self.new }
    {
        if !self.are_answers_next() {
            return Err(Refusal::Fault(LineFault::Misfit));
        }
        let Some(statement) = self.statement_due() else {
            return Err(Refusal::Fault(LineFault::Misfit));
        };
        let (place, answer, count) = answer_line(alloc, statement, text)?;
        if !is_next(place, self.answer_count()) {
            drop(answer);
            return Err(Refusal::Fault(LineFault::Misfit));
        }
        put_answer(alloc, &mut self.transactions, answer)?;
        self.due = Due::of_answer_rows(count);
        Ok(())
    }

    /// A row of the last answer.
    pub fn answer_row(&mut self, alloc: Global, text: &[u8]) -> Result<(), Refusal<LineFault>>
        ensures { Judges (AnswerRowStands self.old (line text.now)) self.old result self.new }
    {
        let Some(more) = self.due.answer_rows() else {
            return Err(Refusal::Fault(LineFault::Misfit));
        };
        let row = row_line(alloc, text)?;
        if !answer_takes(self.transactions.as_slice(), &row) {
            return Err(Refusal::Fault(LineFault::Misfit));
        }
        put_answer_row(alloc, &mut self.transactions, row)?;
        self.due = Due::of_answer_rows(more);
        Ok(())
    }
}
