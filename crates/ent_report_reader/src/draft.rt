//! What a report tells so far, and what is due next.
ghost use Rattle.std.specs.Prelude.{◌≡◌, ◌↔◌, IsTrue};
ghost use Rattle.ent_history.specs.Draft.{Ended, blank};
ghost use Rattle.ent_report_reader.specs.Due.{AnswersAreNext, TablesAreNext};

use crate::due::Due;
use crate::opened::Opened;
use crate::told::are_told;
use ent_history::{History, Shown, Told, ToldJoint};
use ent_tree::{MOST_SCRIPTS, Script};
use ent_value::{Limited, Sequence};
use std::alloc::Global;
use std::marker::Model;

/// A report whose lines stand as far as they were read.
pub struct Draft {
    pub(crate) opening: Opened,
    pub(crate) scripts: Limited<Script, MOST_SCRIPTS>,
    pub(crate) transactions: Sequence<Told>,
    pub(crate) joint_answers: Sequence<ToldJoint>,
    pub(crate) tables: Sequence<Shown>,
    pub(crate) due: Due,
}

impl Drop for Draft {
    fn drop(self) {
        let Draft {
            opening: _opening,
            scripts: _scripts,
            transactions: _transactions,
            joint_answers: _joint_answers,
            tables: _tables,
            due: _due,
        } = self;
    }
}

impl Model for Draft {
    ghost use Rattle.ent_history.specs.Draft.{Draft as Meant};
    ghost use Rattle.std.specs.Prelude.{length};
    ghost use Rattle.ent_report_reader.specs.View.{HasRoom, due_of};

    ghost Value = { Meant };

    ghost view = { λ d. record {
      told = record {
        opening = d.opening;
        scripts = d.scripts;
        transactions = d.transactions;
        joint_answers = d.joint_answers;
        tables = d.tables;
      };
      due = due_of d.due;
    } };

    ghost invariant = { λ d. HasRoom (due_of d.due) (length d.opening.rows) };
}

impl Draft {
    /// A report of which no line stands yet.
    pub fn new(alloc: Global) -> Self
        ensures { result ≡ blank }
    {
        Draft {
            opening: Opened::new(alloc),
            scripts: Limited::new(alloc),
            transactions: Sequence::new(alloc),
            joint_answers: Sequence::new(alloc),
            tables: Sequence::new(alloc),
            due: Due::Heading,
        }
    }

    /// What the report tells.
    pub fn into_history(self) -> History
        ensures { result ≡ self.told }
    {
        let Draft {
            opening,
            scripts,
            transactions,
            joint_answers,
            tables,
            due: _due,
        } = self;
        History {
            opening: opening.into_opening(),
            scripts: Sequence::from_vec(scripts.into_vec()),
            transactions,
            joint_answers,
            tables,
        }
    }

    /// Whether the last line stands.
    pub fn has_ended(&self) -> bool
        ensures { IsTrue result ↔ (self.now.due ≡ Ended) }
    {
        self.due.is_ended()
    }

    /// Whether answers can stand next, whose they are aside.
    pub(crate) fn are_answers_next(&self) -> bool
        ensures { IsTrue result ↔ AnswersAreNext self.now }
    {
        self.due.is_free() && self.joint_answers.is_empty() && self.tables.is_empty()
    }

    /// Whether tables can stand next, which ones aside.
    pub(crate) fn are_tables_next(&self) -> bool
        ensures { IsTrue result ↔ TablesAreNext self.now }
    {
        self.due.is_free() && are_told(self.scripts.as_slice(), self.transactions.as_slice())
    }
}
