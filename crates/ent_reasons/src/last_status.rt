//! What a transaction was told last.
ghost use Rattle.std.specs.Prelude.{◌≡◌};

use ent_group::{Members, Tx};
use ent_semantics::Failure;

/// What a transaction was told last in its run: what blocks it, or what became of it.
#[derive(Debug, Drop)]
pub enum LastStatus {
    /// Nothing: its run began, or it goes on.
    Free,
    /// Another one, which holds a use in conflict with one that its statement asks for.
    Blocked(Tx),
    /// Its statement isn't posted, since a post would have heads of two statements. Posts of a statement count from 1.
    HeldBack {
        asker: Tx,
        post: usize,
        first: Tx,
        second: Tx,
    },
    /// Its statement is posted, and waits for its answer.
    Posted,
    /// Its statement is posted, and no choice answers it together with those of the others; they are all of these.
    NoChoice(Members),
    /// It asked to commit, and waits for its group.
    Prepared,
    Committed,
    /// The ROLLBACK of this one, which may be itself, rolled back its group.
    RolledBack(Tx),
    /// A statement of this one, which may be itself, failed, and its group was rolled back.
    Failed(Tx, Failure),
    /// A deadlock of these, each of which waits for the next, and the last for the first: the group of the first was
    /// rolled back.
    Broken(Members),
}

impl LastStatus {
    pub fn copy(&self) -> Self
        ensures { result ≡ self.now }
    {
        match self {
            LastStatus::Free => LastStatus::Free,
            LastStatus::Blocked(holder) => LastStatus::Blocked(*holder),
            LastStatus::HeldBack {
                asker,
                post,
                first,
                second,
            } => LastStatus::HeldBack {
                asker: *asker,
                post: *post,
                first: *first,
                second: *second,
            },
            LastStatus::Posted => LastStatus::Posted,
            LastStatus::NoChoice(partners) => LastStatus::NoChoice(partners.copy()),
            LastStatus::Prepared => LastStatus::Prepared,
            LastStatus::Committed => LastStatus::Committed,
            LastStatus::RolledBack(tx) => LastStatus::RolledBack(*tx),
            LastStatus::Failed(tx, failure) => LastStatus::Failed(*tx, *failure),
            LastStatus::Broken(cycle) => LastStatus::Broken(cycle.copy()),
        }
    }
}
