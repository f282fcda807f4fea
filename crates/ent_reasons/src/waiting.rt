//! Transactions, as sentences list them.
use crate::observation::Step;
use crate::tables::TableName;
use ent_group::{Members, Tx};
use std::fmt;

/// A deadlock's transactions, each of which waits for the next, and the last for the first, with the tables where they
/// were seen.
#[derive(Clone, Copy)]
pub(crate) struct Deadlock<'a> {
    pub(crate) cycle: &'a Members,
    pub(crate) steps: &'a [Step],
}

impl Deadlock<'_> {
    fn put_step<W: fmt::Write>(&self, f: &mut fmt::Formatter<W>, from: Tx, to: Tx) -> fmt::Result {
        write!(f, "tx {from} waited for tx {to}")?;
        let Some(step) = self.steps.iter().find(|step| step.from == from) else {
            return Ok(());
        };
        let table = TableName(&step.block);
        let holder = step.block.holder;
        if holder == to {
            write!(f, " ({table})")
        } else {
            write!(f, " ({table}, which tx {holder} of its group held)")
        }
    }
}

impl fmt::Display for Deadlock<'_> {
    fn fmt<W: fmt::Write>(&self, f: &mut fmt::Formatter<W>) -> fmt::Result {
        let first = self.cycle.get(0).unwrap_or(0);
        let mut from = first;
        for to in self.cycle.as_slice().get(1..).unwrap_or(&[]) {
            self.put_step(f, from, *to)?;
            write!(f, ", and ")?;
            from = *to;
        }
        self.put_step(f, from, first)
    }
}

/// All of some transactions but one.
#[derive(Clone, Copy)]
pub(crate) struct Others<'a> {
    pub(crate) all: &'a Members,
    pub(crate) but: Tx,
}

impl Others<'_> {
    pub(crate) fn is_empty(&self) -> bool {
        self.all.as_slice().iter().all(|tx| *tx == self.but)
    }
}

impl fmt::Display for Others<'_> {
    fn fmt<W: fmt::Write>(&self, f: &mut fmt::Formatter<W>) -> fmt::Result {
        let mut between = "";
        for tx in self.all.as_slice() {
            if *tx != self.but {
                write!(f, "{between}tx {tx}")?;
                between = ", ";
            }
        }
        Ok(())
    }
}

/// Transactions in a row, each of which was answered together with the next one.
#[derive(Clone, Copy)]
pub(crate) struct Tied<'a>(pub(crate) &'a [Tx]);

impl Tied<'_> {
    /// Whether nobody is tied to another one.
    pub(crate) fn is_empty(&self) -> bool {
        self.0.len() < 2
    }
}

impl fmt::Display for Tied<'_> {
    fn fmt<W: fmt::Write>(&self, f: &mut fmt::Formatter<W>) -> fmt::Result {
        let mut before = "joint answers of";
        let mut last = self.0.first();
        for next in self.0.get(1..).unwrap_or(&[]) {
            if let Some(one) = last {
                write!(f, "{before} tx {one} and tx {next}")?;
            }
            before = ",";
            last = Some(next);
        }
        Ok(())
    }
}
