//! Admissions.
ghost use Rattle.std.specs.Prelude.{◌≡◌, false, true};
ghost use Rattle.ent_value.specs.Refusal.{Gives};
ghost use Rattle.ent_form.specs.OpeningFault.{opening_fault, unless};
ghost use Rattle.ent_admission.specs.Admission.{IsAllTold, IsAtRest, IsIndexed, fresh, is_in_batch};

use crate::batch::Again;
use ent_epoch::Epoch;
use ent_feed::{EndedTicket, Feed};
use ent_form::FormFault;
use ent_meetings::Index;
use ent_tree::Opening;
use ent_value::Refusal;
use ent_waiting::{Limits, Rank, Station, Ticket, WaitingList, WaitingPlace};
use std::alloc::Global;
use std::collections::BTreeSet;
use std::marker::Model;

/// Who waits, the present epoch, the batch that is on, and the groups that tell what came of those before. Contracts
/// see the list, the epoch, who of the batch wasn't submitted yet, how those of it wait again who have no fate, the
/// feed, and who ended otherwise than by a commit and isn't told yet.
#[derive(Drop)]
pub struct Admission {
    pub(crate) alloc: Global,
    pub(crate) epoch: Epoch,
    pub(crate) list: WaitingList,
    pub(crate) index: Index,
    pub(crate) coming: BTreeSet<u64>,
    pub(crate) again: Again,
    pub(crate) feed: Feed,
    pub(crate) news: Vec<EndedTicket>,
}

impl Model for Admission {
    ghost use Rattle.std.specs.Coded.{codes};
    ghost use Rattle.ent_rel.specs.Relation.{coded_rows};
    ghost use Rattle.ent_admission.specs.Admission.{Admission, IsKept};

    ghost Value = { Admission };

    ghost coded = { Prim.hlevel (codes, coded_rows) };

    ghost view = { λ a. record {
      epoch = a.epoch;
      list = a.list;
      coming = a.coming;
      again = a.again;
      feed = a.feed;
      news = a.news.items;
    } };

    ghost invariant = { λ a. IsKept (record {
      epoch = a.epoch;
      list = a.list;
      coming = a.coming;
      again = a.again;
      feed = a.feed;
      news = a.news.items;
    }) a.index };
}

impl Admission {
    /// An epoch of this number over an opening, before which nobody waits; or the opening's first fault of form. The
    /// first script that is put gets the ticket `next`, and the first group of the feed the number `next_group`; those
    /// below them are of an earlier process.
    pub fn open(
        alloc: Global,
        opening: Opening,
        number: u64,
        next: Ticket,
        next_group: u64,
        limits: Limits,
    ) -> Result<Self, Refusal<FormFault>>
        ensures { Gives (λ admission. admission) result (unless (opening_fault opening)
            (fresh number opening next next_group limits.most_waiters limits.most_ended)) }
    {
        let epoch = Epoch::open(alloc, number, opening)?;
        Ok(Admission {
            alloc,
            epoch,
            list: WaitingList::new(alloc, next, limits),
            index: Index::new(alloc),
            coming: BTreeSet::new(alloc),
            again: Again {
                rank: Rank::Woken,
                root: None,
            },
            feed: Feed::new(alloc, next_group),
            news: Vec::new(alloc),
        })
    }

    /// The present epoch.
    pub fn epoch(&self) -> &Epoch
        ensures { result.now ≡ self.now.epoch }
    {
        &self.epoch
    }

    /// Who waits, and how those ended who wait no more.
    pub fn list(&self) -> &WaitingList
        ensures { result.now ≡ self.now.list }
    {
        &self.list
    }

    /// What those who wait offer and demand.
    pub fn index(&self) -> &Index
        ensures { IsIndexed result.now self.now.list }
    {
        &self.index
    }

    /// Whether all that committed is told, and who ended otherwise.
    fn is_all_told(&self) -> bool
        ensures told { result ≡ true → IsAllTold self.now }
        ensures untold { result ≡ false → ¬ IsAllTold self.now }
    {
        if !self.epoch.is_told() {
            return false;
        }
        self.news.is_empty()
    }

    /// Whether no batch is on, and all is told. One stays on only where memory ran out in its midst, or where the feed
    /// has no number left.
    pub fn is_at_rest(&self) -> bool
        ensures at_rest { result ≡ true → IsAtRest self.now }
        ensures busy { result ≡ false → ¬ IsAtRest self.now }
    {
        if let Some(_ticket) = self.coming.first() {
            return false;
        }
        let station = Station::Batch;
        if let Some(_ticket) = self.list.first_from(station, Ticket::new(0)) {
            return false;
        }
        if !self.epoch.is_over() {
            return false;
        }
        self.is_all_told()
    }

    /// Whether the script of a ticket is of the batch that is on, be it submitted or not.
    pub fn is_in_batch(&self, ticket: Ticket) -> bool
        ensures { result ≡ is_in_batch self.now ticket }
    {
        if self.coming.contains(&ticket.number()) {
            return true;
        }
        match self.list.waiter(ticket) {
            Some(waiter) => matches!(
                waiter.place,
                WaitingPlace::Chosen | WaitingPlace::Submitted(_)
            ),
            None => false,
        }
    }
}
