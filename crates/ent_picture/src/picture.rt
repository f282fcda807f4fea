//! What a picture shows, as plain values.
use crate::Demand;
use ent_group::Tx;
use ent_semantics::Failure;

/// What became of a transaction, as far as the trace goes.
#[derive(Clone, Copy, Debug, PartialEq, Eq)]
pub enum Fate {
    /// It is in a run still.
    Open,
    /// It committed, with this number.
    Committed(u64),
    /// Its script ended with ROLLBACK.
    RolledBack,
    Failed(Failure),
    /// It left its last run without any of these.
    GaveUp,
}

/// The lane of a transaction.
#[derive(Clone, Copy, Debug, PartialEq, Eq)]
pub struct Lane {
    pub tx: Tx,
    pub fate: Fate,
}

/// A run: its number, counted from 1, and the columns of its start and its end.
#[derive(Clone, Copy, Debug, PartialEq, Eq)]
pub struct Run {
    pub number: u64,
    pub from: u64,
    pub to: u64,
}

/// A lane in a run, from where it takes part to where it leaves.
#[derive(Clone, Copy, Debug, PartialEq, Eq)]
pub struct Life {
    pub lane: u64,
    pub from: u64,
    pub to: u64,
}

/// A lane in a group, whose members were answered together, or are partners of partners.
#[derive(Clone, Copy, Debug, PartialEq, Eq)]
pub struct Shade {
    pub lane: u64,
    pub from: u64,
    pub to: u64,
    pub group: u64,
}

/// What goes on in a lane for a while.
#[derive(Clone, Copy, Debug, PartialEq, Eq)]
pub enum What {
    /// A statement is carried out; its answer stands in the exchange of this index.
    Statement { answer: Option<usize> },
    /// An entangled statement waits for its partners.
    Posted,
    /// COMMIT waits for the partners.
    Prepared,
    /// This transaction blocks it.
    Blocked(Tx),
    /// An entangled statement may not be posted, since a demand would fit two.
    HeldBack(Demand),
}

/// What goes on in a lane from one column to another, with the numbers of the events between which it does, and at
/// which place of its script.
#[derive(Clone, Copy, Debug, PartialEq, Eq)]
pub struct Bar {
    pub lane: u64,
    pub from: u64,
    pub to: u64,
    pub first: u64,
    pub last: u64,
    pub place: u64,
    pub what: What,
}

/// What several lanes have in common.
#[derive(Clone, Copy, Debug, PartialEq, Eq)]
pub enum LinkKind {
    /// They were answered together, and are of this group from then on.
    Joint(u64),
    /// They committed in one event.
    Commit,
    /// Each waited for the next, and the last for the first.
    Cycle,
}

/// What several lanes have in common at a column.
#[derive(Debug, Drop)]
pub struct Link {
    pub column: u64,
    pub kind: LinkKind,
    pub lanes: Vec<u64>,
}

/// How a lane leaves a run.
#[derive(Clone, Copy, Debug, PartialEq, Eq)]
pub enum MarkKind {
    Committed(u64),
    RolledBack,
    Failed(Failure),
    /// It was rolled back with its group.
    TakenBack,
    /// The run ended.
    Ended,
}

/// How a lane leaves a run at a column, and whether it is in a later run.
#[derive(Clone, Copy, Debug, PartialEq, Eq)]
pub struct Mark {
    pub lane: u64,
    pub column: u64,
    pub kind: MarkKind,
    pub is_back: bool,
}

/// A picture. Events that show something have a column, and some that follow each other share one: those by which
/// members of several lanes begin to wait, and a statement's begin and end. `columns` has of each column the number of
/// its first event, counted from 1, and whatever has a column has its index there. A lane is meant by its index.
#[derive(Debug, Drop)]
pub struct Picture {
    pub events: u64,
    pub groups: u64,
    pub columns: Vec<u64>,
    pub lanes: Vec<Lane>,
    pub runs: Vec<Run>,
    pub lives: Vec<Life>,
    pub shades: Vec<Shade>,
    pub bars: Vec<Bar>,
    pub links: Vec<Link>,
    pub marks: Vec<Mark>,
}
