//! Groups of a feed.
use ent_rel::Delta;
use ent_semantics::{Answer, Failure};
use ent_value::{Name, Sequence};
use ent_waiting::Ticket;

/// A commit: whose, its number in the journal of its epoch, and what its statements answered, in order.
#[derive(Drop)]
pub struct Commit {
    pub ticket: Ticket,
    pub number: u64,
    pub answers: Sequence<Answer>,
}

/// The net change of a table: the rows that went, and those that came.
#[derive(Drop)]
pub struct TableChange {
    pub table: Name,
    pub delta: Delta,
}

/// How a ticket ended that didn't commit. Whoever withdraws one knows it.
#[derive(Clone, Copy, Debug, PartialEq, Eq)]
pub enum OtherEnding {
    /// Its script ended with ROLLBACK.
    RolledBack,
    /// A statement couldn't be carried out.
    Failed(Failure),
    /// Its patience is used up.
    GaveUp,
}

/// A ticket that ended, and didn't commit.
#[derive(Clone, Copy, Debug, PartialEq, Eq)]
pub struct EndedTicket {
    pub ticket: Ticket,
    pub ending: OtherEnding,
}

/// What a store takes in at once: transactions that committed together, with all that they changed; and tickets that
/// ended otherwise.
#[derive(Drop)]
pub struct Group {
    /// Groups are counted on over epochs and processes.
    pub number: u64,
    pub epoch: u64,
    /// In order of their numbers in the journal.
    pub commits: Sequence<Commit>,
    /// In order of the tables' declaration; a table in which nothing changed isn't there.
    pub changes: Sequence<TableChange>,
    pub ended: Sequence<EndedTicket>,
}
