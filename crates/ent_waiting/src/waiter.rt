//! Scripts that wait.
ghost use Rattle.std.specs.Prelude.{◌≡◌, OnErr, OnOk};
ghost use Rattle.ent_waiting.specs.Waiter.{back_in, is_idle, is_over, newcomer, with_batch, with_place_noted};

use crate::ended::{Ended, Ending};
use crate::queues::Rank;
use crate::ticket::Ticket;
use ent_tree::{Runs, Script};
use ent_value::Sequence;
use std::alloc::{AllocError, Global};

/// In how many batches a script takes part before it gives up.
#[derive(Clone, Copy, Debug)]
pub enum Patience {
    Batches(Runs),
    UntilWithdrawn,
}

/// Which transaction a script became: the number of the epoch, and that of the transaction in it.
#[derive(Clone, Copy, Debug, PartialEq, Eq)]
pub struct Submission {
    pub epoch: u64,
    pub tx: u64,
}

/// Where a script waits.
#[derive(Clone, Copy, Debug, PartialEq, Eq)]
pub enum WaitingPlace {
    /// In no queue: nothing is tried for it until something changes.
    Resting,
    /// In the queue of this rank.
    Queued(Rank),
    /// In a batch, to which it isn't submitted yet.
    Chosen,
    /// In a batch, as this transaction.
    Submitted(Submission),
}

impl WaitingPlace {
    /// Whether who is there is in no batch.
    pub fn is_idle(self) -> bool
        ensures { result ≡ is_idle self }
    {
        match self {
            WaitingPlace::Resting | WaitingPlace::Queued(_) => true,
            WaitingPlace::Chosen | WaitingPlace::Submitted(_) => false,
        }
    }
}

/// A script that waits.
#[derive(Drop)]
pub struct Waiter {
    /// As it was put.
    pub script: Script,
    pub patience: Patience,
    /// In how many batches it was that count against its patience.
    pub batches: u64,
    /// The transactions that it became so far, in order. The present one comes in when it is over.
    pub submissions: Sequence<Submission>,
    pub place: WaitingPlace,
    /// Its meeting is tried by itself next.
    pub alone: bool,
}

impl Waiter {
    /// A script that was in so many batches of an earlier process, and in none of this one.
    pub(crate) fn new(
        alloc: Global,
        script: Script,
        patience: Patience,
        batches: u64,
        rank: Rank,
    ) -> Self
        ensures { result ≡ newcomer script patience batches rank }
    {
        Waiter {
            script,
            patience,
            batches,
            submissions: Sequence::new(alloc),
            place: WaitingPlace::Queued(rank),
            alone: false,
        }
    }

    /// Notes the transaction that it became, where its place is one. Where memory runs out nothing changes.
    pub(crate) fn note_place(&mut self) -> Result<(), AllocError>
        ensures ok { OnOk result (self.new ≡ with_place_noted self.old) }
        ensures err { OnErr result (self.new ≡ self.old) }
    {
        if let WaitingPlace::Submitted(submission) = self.place {
            self.submissions.push(submission)?;
        }
        Ok(())
    }

    /// It waits again after a batch, in the queue of this rank. Where memory runs out nothing changes.
    pub(crate) fn come_back(
        &mut self,
        rank: Rank,
        counts: bool,
        alone: bool,
    ) -> Result<(), AllocError>
        ensures ok { OnOk result (self.new ≡ back_in rank counts alone self.old) }
        ensures err { OnErr result (self.new ≡ self.old) }
    {
        self.note_place()?;
        self.batches = with_batch(self.batches, counts);
        self.place = WaitingPlace::Queued(rank);
        self.alone = alone;
        Ok(())
    }

    /// The waiter as an ended ticket, with this ending.
    pub(crate) fn ended(self, ticket: Ticket, ending: Ending, counts: bool) -> Ended
        ensures { result ≡ record {
          ticket = ticket;
          ending = ending;
          batches = with_batch counts self.batches;
          submissions = self.submissions;
        } }
    {
        Ended {
            ticket,
            ending,
            batches: with_batch(self.batches, counts),
            submissions: self.submissions,
        }
    }
}

/// Whether its patience is used up after so many batches.
pub(crate) fn is_over(patience: Patience, batches: u64) -> bool
    ensures { result ≡ is_over patience batches }
{
    match patience {
        Patience::Batches(most) => most.get() <= batches,
        Patience::UntilWithdrawn => false,
    }
}

/// In how many batches it was, once one more is over.
pub(crate) fn with_batch(batches: u64, counts: bool) -> u64
    ensures { result ≡ with_batch counts batches }
{
    if counts {
        batches.saturating_add(1)
    } else {
        batches
    }
}
