//! What a trace tells.
use ent_group::Tx;
use ent_semantics::Failure;

/// An event of a run. A result is known by the number of its job, counted from 1 as jobs are lent.
#[derive(Clone, Copy, Debug, PartialEq, Eq)]
pub enum Event {
    StartRun,
    Begin(Tx),
    Finish(u64),
    Pick,
    JoinAnswer(u64),
    BreakCycle,
    EndRun,
    Recall,
}

/// A demand that two posted statements would fit: the postcondition of a transaction, counted from 1, and the two
/// transactions with a head for it.
#[derive(Clone, Copy, Debug, PartialEq, Eq)]
pub struct Demand {
    pub asker: Tx,
    pub post: u64,
    pub first: Tx,
    pub second: Tx,
}

/// A transaction that committed, and its commit number.
#[derive(Clone, Copy, Debug, PartialEq, Eq)]
pub struct Commit {
    pub number: u64,
    pub tx: Tx,
}

/// The reply to an event.
#[derive(Debug, Drop)]
pub enum Reply {
    /// A run is on, with these members.
    Started(Vec<Tx>),
    /// This transaction blocks it.
    Blocked(Tx),
    /// The job of this number is lent.
    Lent(u64),
    HeldBack(Demand),
    Posted,
    Prepared,
    Committed(Vec<Commit>),
    /// The transaction of the event, and the others of its group.
    RolledBack(Vec<Tx>),
    /// A statement's answer, as a report has it, in one line.
    Stepped(Vec<u8>),
    /// A statement failed; the transactions of its group.
    Failed(Failure, Vec<Tx>),
    Nothing,
    Answered,
    NoChoice,
    /// A cycle of waiting, and the group that was rolled back for it.
    Broken { cycle: Vec<Tx>, group: Vec<Tx> },
    NoCycle,
    /// The run is over, with these members left.
    Ended(Vec<Tx>),
    Recalled,
    /// The event was refused: what stands behind the E, its number and why.
    Refused(Vec<u8>),
}

/// An event and its reply.
#[derive(Debug, Drop)]
pub struct Exchange {
    pub event: Event,
    pub reply: Reply,
}
