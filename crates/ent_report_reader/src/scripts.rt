//! The scripts.
ghost use Rattle.std.specs.Prelude.{◌≡◌, ◌↔◌, ◌+◌, ◌++◌, IfOk, IsTrue, length};
ghost use Rattle.ent_book.specs.Report2.{line_count};
ghost use Rattle.ent_history.specs.Scripts.{ScriptIsNext, ScriptStands};
ghost use Rattle.ent_history.specs.Begins.{BeginsScript, script_line};
ghost use Rattle.ent_report_reader.specs.Judging.{Judges};
ghost use Rattle.ent_report_reader.specs.Scripts.{IsScriptLine};
ghost use Rattle.ent_report_reader.specs.Reading.{Reads};

use crate::draft::Draft;
use crate::lists::is_next;
use crate::reading::script_line;
use ent_history::{begins_script, read_script};
use ent_text::LineFault;
use ent_tree::MOST_SCRIPTS;
use ent_value::Refusal;
use std::alloc::{AllocError, Global};

impl Draft {
    /// Whether a script can stand next, which one aside.
    fn is_script_next(&self) -> bool
        ensures { IsTrue result ↔ ScriptIsNext self.now }
    {
        self.due.is_free()
            && self.transactions.is_empty()
            && self.joint_answers.is_empty()
            && self.tables.is_empty()
            && self.scripts.len() < MOST_SCRIPTS
    }

    /// The line above a script, where one can stand next: how many lines it says the script has.
    pub fn script_line(&self, text: &[u8]) -> Result<u64, Refusal<LineFault>>
        ensures { Reads (IsScriptLine self.now text.now) result }
    {
        if !self.is_script_next() {
            return Err(Refusal::Fault(LineFault::Misfit));
        }
        let (number, count) = script_line(text)?;
        if !is_next(number, self.scripts.len()) {
            return Err(Refusal::Fault(LineFault::Misfit));
        }
        Ok(count)
    }

    /// The next script, whose lines these are.
    pub fn script(&mut self, alloc: Global, lines: &str) -> Result<(), Refusal<LineFault>>
        ensures { Judges (ScriptStands self.old (script_line (length self.old.told.scripts + 1) (line_count lines.now)
            ++ lines.now)) self.old result self.new }
    {
        if !self.is_script_next() {
            return Err(Refusal::Fault(LineFault::Misfit));
        }
        let Some(script) = read_script(alloc, self.opening.catalogue(), lines)? else {
            return Err(Refusal::Fault(LineFault::Misfit));
        };
        self.scripts.push(script)?;
        Ok(())
    }

    /// Whether these lines begin a script of so many lines that the report can show, and aren't all of it.
    pub fn begins_script(&self, alloc: Global, lines: &str, count: u64) -> Result<bool, AllocError>
        ensures { IfOk result (λ begins. IsTrue begins ↔ BeginsScript self.now.told lines.now count) }
    {
        begins_script(alloc, self.opening.catalogue(), lines, count)
    }
}
