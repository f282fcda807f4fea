//! What one client holds.
ghost use Rattle.std.specs.Prelude.{◌≡◌, ◌+◌, ◌==◌, [], Some, find, length};
ghost use Rattle.std.specs.Option.{option_map};
ghost use Rattle.ent_desk.specs.Opened.{other_session};
ghost use Rattle.ent_desk.specs.Told.{fate_of};

use crate::ticket::{First, Receipt, Ticket};
use ent_group::Tx;
use ent_semantics::Fate;
use ent_stamp::{Naming, StampedDone, StampedJob};
use std::alloc::Global;
use std::marker::Model;
use std::sync::ledger::{Book, Share};

/// What memory stopped on its way: a job that couldn't be done, or a result that couldn't be handed in.
#[derive(Drop)]
pub enum Stopped<L: Naming> {
    Job(StampedJob<L>),
    Done(StampedDone<L>),
}

/// What one client holds: the tickets of the scripts that it submitted, the receipts of the commits that its steps
/// made, and at most one job or result that memory stopped. The first session of a manager also keeps what the manager
/// was opened over. It is of one manager, by its ledgers.
#[derive(Drop)]
pub struct Session<L: Naming> {
    pub(crate) tickets: Vec<Ticket>,
    pub(crate) receipts: Vec<Receipt>,
    pub(crate) first: Option<First>,
    pub(crate) stopped: Option<Stopped<L>>,
    pub(crate) submitted: Share<L::Scripts>,
    pub(crate) committed: Share<L::Entries>,
}

impl<L: Naming> Model for Session<L> {
    ghost use Rattle.std.specs.Prelude.{◌≡◌, length};
    ghost use Rattle.ent_desk.specs.Seen.{SessionState};

    ghost Value = { SessionState };

    ghost view = { λ s. record { tickets = s.tickets.items; receipts = s.receipts.items; first = s.first } };

    ghost invariant = { λ s.
        (s.submitted.parts ≡ 1) × (s.submitted.amount ≡ length s.tickets.items)
        × (s.committed.parts ≡ 1) × (s.committed.amount ≡ length s.receipts.items) };
}

/// The fate that a receipt tells of.
fn fate_told(receipt: &Receipt) -> Fate
    ensures { result ≡ fate_of receipt.now }
{
    Fate::Committed {
        number: receipt.number,
        runs: receipt.runs,
    }
}

/// The fate that the first receipt of a transaction tells of.
fn fate_among(receipts: &[Receipt], tx: Tx) -> Option<Fate>
    ensures { result ≡ option_map fate_of (find (λ receipt. receipt.tx == tx) receipts.now) }
{
    for receipt in receipts {
        if receipt.tx == tx {
            return Some(fate_told(receipt));
        }
    }
    None
}

impl<L: Naming> Session<L> {
    /// A session that holds these tickets, which the share counts.
    pub(crate) fn new(
        alloc: Global,
        tickets: Vec<Ticket>,
        first: Option<First>,
        submitted: Share<L::Scripts>,
        committed: Share<L::Entries>,
    ) -> Self
        requires submitted { (submitted.parts ≡ 1) × (submitted.amount ≡ length tickets.items) }
        requires committed { (committed.parts ≡ 1) × (committed.amount ≡ 0) }
        ensures { result ≡ record { tickets = tickets.items; receipts = []; first = first } }
    {
        Session {
            tickets,
            receipts: Vec::new(alloc),
            first,
            stopped: None,
            submitted,
            committed,
        }
    }

    /// The scripts that it submitted, with the numbers of their transactions, in order; the first session's begin with
    /// those that the manager was opened over.
    pub fn tickets(&self) -> &[Ticket]
        ensures { result.now ≡ self.now.tickets }
    {
        self.tickets.as_slice()
    }

    /// The commits that its steps made, in order.
    pub fn receipts(&self) -> &[Receipt]
        ensures { result.now ≡ self.now.receipts }
    {
        self.receipts.as_slice()
    }

    /// The fate of a transaction of which it holds a receipt: the first one's.
    pub fn fate(&self, tx: Tx) -> Option<Fate>
        ensures { result ≡ option_map fate_of (find (λ receipt. receipt.tx == tx) self.now.receipts) }
    {
        fate_among(self.receipts.as_slice(), tx)
    }

    /// Shares of no part, which others can be lent to.
    pub(crate) fn no_part(&mut self) -> (Share<L::Scripts>, Share<L::Entries>)
        ensures same { self.new ≡ self.old }
        ensures submitted { (result.0.parts ≡ 0) × (result.0.amount ≡ 0) }
        ensures committed { (result.1.parts ≡ 0) × (result.1.amount ≡ 0) }
    {
        (self.submitted.empty(), self.committed.empty())
    }

    /// Takes out what memory stopped.
    pub fn take_stopped(&mut self) -> Option<Stopped<L>>
        ensures { self.new ≡ self.old }
    {
        self.stopped.take()
    }

    /// Keeps what memory stopped. What it kept before is dropped, so it is to be taken out first.
    pub fn keep_stopped(&mut self, stopped: Stopped<L>)
        ensures { self.new ≡ self.old }
    {
        self.stopped = Some(stopped);
    }

    /// Holds nothing any more, and the books don't count what it held.
    pub(crate) fn empty(&mut self, scripts: &mut Book<L::Scripts>, entries: &mut Book<L::Entries>)
        ensures session { self.new ≡ other_session }
        ensures scripts { scripts.new.total + length self.old.tickets ≡ scripts.old.total }
        ensures entries { entries.new.total + length self.old.receipts ≡ entries.old.total }
    {
        let made = self.tickets.len() as u64;
        let got = self.receipts.len() as u64;
        scripts.sub(&mut self.submitted, made);
        entries.sub(&mut self.committed, got);
        self.tickets.clear();
        self.receipts.clear();
        self.first = None;
        self.stopped = None;
    }

    /// Keeps what a manager goes on over.
    pub(crate) fn keep_first(&mut self, first: First)
        ensures { self.new ≡ record self.old { first = Some first } }
    {
        self.first = Some(first);
    }
}
