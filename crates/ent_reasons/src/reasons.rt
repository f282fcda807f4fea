//! Why transactions didn't commit.
ghost use Rattle.std.specs.Prelude.{◌≡◌, IfOk};

use crate::last_status::LastStatus;
use crate::notes::Notes;
use crate::observations::Observations;
use crate::reason::Reason;
use crate::script_lines::ScriptLines;
use ent_group::Tx;
use std::alloc::{AllocError, Global};
use std::fmt;

/// Why transactions didn't commit. Printed it is two lines for each that didn't, by number; nothing where all did. Where
/// many hang on one demand over long ways, one of them has its two lines, and a third one names the others.
#[derive(Drop)]
pub struct Reasons {
    notes: Notes,
    observations: Observations,
    lines: ScriptLines,
}

impl Reasons {
    /// Those of the scripts of an input, from the notes of their runs, and from what was seen in them.
    pub fn of(
        alloc: Global,
        text: &str,
        notes: Notes,
        observations: Observations,
    ) -> Result<Self, AllocError>
        ensures notes { IfOk result (λ reasons. reasons.notes ≡ notes) }
        ensures observations { IfOk result (λ reasons. reasons.observations ≡ observations) }
    {
        let lines = ScriptLines::of(alloc, text)?;
        Ok(Reasons {
            notes,
            observations,
            lines,
        })
    }
}

/// A demand on which transactions hang: whose it is, and its number.
#[derive(Clone, Copy, PartialEq, Eq)]
struct Root {
    tx: Tx,
    number: usize,
}

impl Reasons {
    /// The demand on which a posted transaction hangs, where the way to it is long.
    fn far_root(&self, tx: Tx) -> Option<Root> {
        match self.notes.by_number().get(tx as usize)?.last_status {
            LastStatus::Posted | LastStatus::NoChoice(_) => {}
            _ => return None,
        }
        let lacking = self.observations.lacking(tx)?;
        if !lacking.is_long() {
            return None;
        }
        Some(Root {
            tx: lacking.way.as_slice().last().copied()?,
            number: lacking.number,
        })
    }

    /// Whether a transaction of a lower number hangs on the same demand.
    fn is_told(&self, tx: Tx, root: Root) -> bool {
        (1..tx)
            .rev()
            .any(|other| self.far_root(other) == Some(root))
    }

    /// A line that names the transactions of higher numbers that hang on the same demand, if there are any.
    fn put_others<W: fmt::Write>(
        &self,
        f: &mut fmt::Formatter<W>,
        tx: Tx,
        root: Root,
    ) -> fmt::Result {
        let mut between = "the same stopped";
        let mut first = None;
        let end = self.notes.by_number().len() as Tx;
        for other in tx.saturating_add(1)..=end {
            let is_other = other < end && self.far_root(other) == Some(root);
            match first {
                None if is_other => first = Some(other),
                Some(from) if !is_other => {
                    let to = other.saturating_sub(1);
                    write!(f, "{between} tx {from}")?;
                    if from < to {
                        write!(f, " to tx {to}")?;
                    }
                    between = ",";
                    first = None;
                }
                _ => {}
            }
        }
        if between == "," {
            write!(f, "\n")
        } else {
            Ok(())
        }
    }
}

impl fmt::Display for Reasons {
    fn fmt<W: fmt::Write>(&self, f: &mut fmt::Formatter<W>) -> fmt::Result {
        if !self.notes.is_whole() {
            return write!(f, "memory ran out for why transactions didn't commit\n");
        }
        let notes = self.notes.by_number();
        for number in 1..notes.len() {
            let tx = number as Tx;
            let root = self.far_root(tx);
            if let Some(reason) = Reason::of(tx, notes, &self.observations, &self.lines)
                && !root.is_some_and(|root| self.is_told(tx, root))
            {
                write!(f, "{reason}\n")?;
                if let Some(root) = root {
                    self.put_others(f, tx, root)?;
                }
            }
        }
        Ok(())
    }
}
