//! Why a transaction didn't commit.
use crate::last_status::LastStatus;
use crate::note::Note;
use crate::observations::Observations;
use crate::script_lines::ScriptLines;
use crate::tables::{ModeText, TableName, block_of};
use crate::waiting::{Deadlock, Others, Tied};
use ent_group::{Members, Tx};
use ent_semantics::Failure;
use std::fmt;

/// Why a transaction didn't commit, from the notes of all, by number, and from what was seen. Printed it is two lines
/// without an end of the last: its fate, as the report has it; and where it stood in its last run and what stopped it
/// there.
#[derive(Clone, Copy)]
pub(crate) struct Reason<'a> {
    tx: Tx,
    notes: &'a [Note],
    observations: &'a Observations,
    lines: &'a ScriptLines,
}

impl<'a> Reason<'a> {
    /// None of a transaction that committed.
    pub(crate) fn of(
        tx: Tx,
        notes: &'a [Note],
        observations: &'a Observations,
        lines: &'a ScriptLines,
    ) -> Option<Self> {
        let note = notes.get(tx as usize)?;
        match note.last_status {
            LastStatus::Committed => None,
            _ => Some(Reason {
                tx,
                notes,
                observations,
                lines,
            }),
        }
    }

    /// Begins a line with where a transaction stood last.
    fn put_spot<W: fmt::Write>(&self, f: &mut fmt::Formatter<W>, tx: Tx) -> fmt::Result {
        let passed = match self.notes.get(tx as usize) {
            Some(note) => note.passed.count(),
            None => 0,
        };
        match self.lines.spot(tx, passed) {
            Some(spot) => write!(f, "{spot}"),
            None => write!(f, "its script"),
        }
    }

    /// Says that it was rolled back because of another transaction: where that one stood, and what ties it to that one.
    fn put_other<W: fmt::Write>(&self, f: &mut fmt::Formatter<W>, other: Tx) -> fmt::Result {
        write!(f, "rolled back with tx {other} of its group (")?;
        self.put_spot(f, other)?;
        let tied = Tied(self.observations.tie_of(self.tx));
        if !tied.is_empty() {
            write!(f, "; {tied}")?;
        }
        write!(f, "): ")
    }

    fn put_rolled_back<W: fmt::Write>(&self, f: &mut fmt::Formatter<W>, by: Tx) -> fmt::Result {
        if by != self.tx {
            self.put_other(f, by)?;
        }
        write!(f, "the script ends so")
    }

    fn put_failed<W: fmt::Write>(
        &self,
        f: &mut fmt::Formatter<W>,
        by: Tx,
        failure: Failure,
    ) -> fmt::Result {
        if by != self.tx {
            self.put_other(f, by)?;
        }
        match failure {
            Failure::Overflow => write!(f, "a sum or a difference went beyond 64 bits"),
            Failure::TableFull => write!(f, "more than 65,536 rows would have stood in a table"),
        }
    }

    fn put_broken<W: fmt::Write>(&self, f: &mut fmt::Formatter<W>, cycle: &Members) -> fmt::Result {
        let deadlock = Deadlock {
            cycle,
            steps: self.observations.steps(self.tx),
        };
        let victim = cycle.get(0).unwrap_or(0);
        if victim == self.tx {
            return write!(f, "rolled back to break a deadlock: {deadlock}");
        }
        write!(f, "rolled back with tx {victim} of its group")?;
        let tied = Tied(self.observations.tie_of(self.tx));
        if !tied.is_empty() {
            write!(f, " ({tied})")?;
        }
        write!(f, ", to break a deadlock: {deadlock}")
    }

    fn put_no_choice<W: fmt::Write>(
        &self,
        f: &mut fmt::Formatter<W>,
        all: &Members,
    ) -> fmt::Result {
        let others = Others { all, but: self.tx };
        if others.is_empty() {
            return write!(f, "posted, and not answered: no values serve it");
        }
        write!(
            f,
            "posted, and not answered: no values serve it together with {others}"
        )
    }

    /// That it was posted, and what it lacked: what nobody offered, of all that it hangs on.
    fn put_posted<W: fmt::Write>(
        &self,
        f: &mut fmt::Formatter<W>,
        tried: Option<&Members>,
    ) -> fmt::Result {
        if let Some(lacking) = self.observations.lacking(self.tx) {
            return write!(f, "posted, and not answered: {lacking}");
        }
        match tried {
            Some(all) => self.put_no_choice(f, all),
            None => write!(
                f,
                "posted, and not answered: nobody offered what it, or a partner, demands"
            ),
        }
    }

    fn put_blocked<W: fmt::Write>(&self, f: &mut fmt::Formatter<W>, holder: Tx) -> fmt::Result {
        let Some(block) = block_of(self.observations, self.tx, holder) else {
            return write!(f, "blocked by tx {holder}, which held a table that it uses");
        };
        let table = TableName(block);
        let held = ModeText(block.held);
        let asked = ModeText(block.asked);
        write!(
            f,
            "blocked by tx {holder}, which held {table} {held}; the statement uses it {asked}"
        )
    }

    fn put_last_status<W: fmt::Write>(
        &self,
        f: &mut fmt::Formatter<W>,
        last_status: &LastStatus,
    ) -> fmt::Result {
        match last_status {
            LastStatus::Free | LastStatus::Committed => write!(f, "nothing blocked it"),
            LastStatus::Blocked(holder) => self.put_blocked(f, *holder),
            LastStatus::HeldBack {
                asker,
                post,
                first,
                second,
            } => write!(
                f,
                "held back, since demand {post} of tx {asker} would meet offers of two, tx {first} and tx {second}"
            ),
            LastStatus::Posted => self.put_posted(f, None),
            LastStatus::NoChoice(all) => self.put_posted(f, Some(all)),
            LastStatus::Prepared => {
                write!(f, "it asked to commit, and others of its group never did")
            }
            LastStatus::RolledBack(by) => self.put_rolled_back(f, *by),
            LastStatus::Failed(by, failure) => self.put_failed(f, *by, *failure),
            LastStatus::Broken(cycle) => self.put_broken(f, cycle),
        }
    }
}

/// The fate of a transaction with such a note, as the report names it.
fn fate_of(tx: Tx, note: &Note) -> &'static str {
    match &note.last_status {
        LastStatus::RolledBack(by) if *by == tx => "rolled back",
        LastStatus::Failed(by, Failure::Overflow) if *by == tx => "failed F1",
        LastStatus::Failed(by, Failure::TableFull) if *by == tx => "failed F2",
        _ => "gave up",
    }
}

impl fmt::Display for Reason<'_> {
    fn fmt<W: fmt::Write>(&self, f: &mut fmt::Formatter<W>) -> fmt::Result {
        let Some(note) = self.notes.get(self.tx as usize) else {
            return Ok(());
        };
        let tx = self.tx;
        let fate = fate_of(tx, note);
        let runs = note.runs.count();
        write!(f, "tx {tx} {fate} after {runs}\n")?;
        self.put_spot(f, tx)?;
        write!(f, ": ")?;
        self.put_last_status(f, &note.last_status)
    }
}
