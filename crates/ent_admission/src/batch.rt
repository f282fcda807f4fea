//! What becomes of those of a batch who weren't answered.
ghost use Rattle.std.specs.Prelude.{◌≡◌};
ghost use Rattle.ent_admission.specs.Again.{counts_for};

use ent_waiting::Rank;

/// How those of a batch wait again who have no fate of their own after it.
#[derive(Clone, Copy, Debug, PartialEq, Eq)]
pub struct Again {
    /// In which queue.
    pub rank: Rank,
    /// Against whose patience the batch counts, of them: it is a try of this one.
    pub root: Option<u64>,
}

/// Whether a batch counts against the patience of a ticket.
pub(crate) fn counts_for(again: Again, ticket: u64) -> bool
    ensures { result ≡ counts_for again ticket }
{
    match again.root {
        Some(root) => root == ticket,
        None => false,
    }
}
