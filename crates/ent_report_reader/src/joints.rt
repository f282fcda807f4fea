//! The lines of joint answers.
ghost use Rattle.ent_book.specs.Report.{line};
ghost use Rattle.ent_history.specs.Joints.{JointStands};
ghost use Rattle.ent_report_reader.specs.Judging.{Judges};

use crate::draft::Draft;
use crate::due::Due;
use crate::lists::is_next;
use crate::reading::joint_line;
use ent_history::ToldJoint;
use ent_text::LineFault;
use ent_value::{Refusal, Sequence};
use std::alloc::Global;

/// The most joint answers that have a number, which is more than memory holds.
const MOST_NUMBERS: usize = 9_223_372_036_854_775_807;

impl Draft {
    /// The line of a joint answer: its number, and the places of its members.
    pub fn joint(&mut self, alloc: Global, text: &[u8]) -> Result<(), Refusal<LineFault>>
        ensures { Judges (JointStands self.old (line text.now)) self.old result self.new }
    {
        if !self.are_tables_next() {
            return Err(Refusal::Fault(LineFault::Misfit));
        }
        if !self.tables.is_empty() {
            return Err(Refusal::Fault(LineFault::Misfit));
        }
        let before = self.joint_answers.len();
        if before >= MOST_NUMBERS {
            return Err(Refusal::Memory);
        }
        let (number, places) = joint_line(alloc, text)?;
        if !is_next(number, before) {
            drop(places);
            return Err(Refusal::Fault(LineFault::Misfit));
        }
        self.joint_answers.push(ToldJoint {
            members: Sequence::new(alloc),
        })?;
        self.due = Due::of_members(places);
        Ok(())
    }
}
