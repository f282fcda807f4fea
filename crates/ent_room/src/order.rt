//! In which order roots have their turns.
use ent_waiting::{Rank, Station, Ticket, WaitingList, WaitingPlace};
use std::alloc::{AllocError, Global};
use std::collections::{BTreeSet, VecDeque};

/// A root that had a run, and the work that it used up.
#[derive(Clone, Copy, PartialEq, Eq, PartialOrd, Ord)]
struct Standing {
    work: u64,
    ticket: u64,
}

/// In which order roots have their turns. Every other turn is a newcomer's, the first who came; so it is until its first
/// run. The others come by the work that they used up, the least first.
#[derive(Drop)]
pub(crate) struct Order {
    fresh: VecDeque<u64>,
    old: BTreeSet<Standing>,
    /// No root comes to the old ones with this work or less.
    level: u64,
    is_newcomers: bool,
}

/// Whether somebody waits in the queue of a rank.
fn stands_in(list: &WaitingList, ticket: u64, rank: Rank) -> bool {
    match list.waiter(Ticket::new(ticket)) {
        Some(waiter) => waiter.place == WaitingPlace::Queued(rank),
        None => false,
    }
}

/// The first who waits in the queue of a rank.
fn first_in(list: &WaitingList, rank: Rank) -> Option<u64> {
    let first = list.first_from(Station::Queue(rank), Ticket::new(0))?;
    Some(first.number())
}

impl Order {
    pub(crate) fn new(alloc: Global) -> Self {
        Order {
            fresh: VecDeque::new(alloc),
            old: BTreeSet::new(alloc),
            level: 0,
            is_newcomers: true,
        }
    }

    /// Somebody comes to the end of the newcomers.
    pub(crate) fn come(&mut self, ticket: u64) -> Result<(), AllocError> {
        self.fresh.push_back(ticket)?;
        Ok(())
    }

    /// The last who came isn't there after all.
    pub(crate) fn take_back(&mut self) {
        let _last = self.fresh.pop_back();
    }

    /// The work of a root that comes to the old ones: more than that of any whose turn it was.
    pub(crate) fn work_of_entrant(&self, work: u64) -> u64 {
        work.max(self.level.saturating_add(1))
    }

    /// A root comes to the old ones with this work.
    pub(crate) fn grow_old(&mut self, ticket: u64, work: u64) -> Result<(), AllocError> {
        self.old.insert(Standing { work, ticket })?;
        Ok(())
    }

    /// A root with this work goes from the old ones.
    pub(crate) fn leave(&mut self, ticket: u64, work: u64) {
        self.old.remove(&Standing { work, ticket });
    }

    /// It was the turn of a root with this work.
    pub(crate) fn rise(&mut self, work: u64) {
        self.level = self.level.max(work);
    }

    /// The turn of the first newcomer is over.
    pub(crate) fn pass(&mut self, ticket: u64) {
        if self.fresh.front() == Some(&ticket) {
            let _first = self.fresh.pop_front();
        }
    }

    /// The next turn is of the others.
    pub(crate) fn alternate(&mut self) {
        self.is_newcomers = !self.is_newcomers;
    }

    /// The first newcomer who has no turn behind it.
    fn first_fresh(&mut self, list: &WaitingList) -> Option<u64> {
        'gone: for _ in 0..self.fresh.len() {
            match self.fresh.front() {
                Some(ticket) if stands_in(list, *ticket, Rank::Newcomer) => return Some(*ticket),
                _ => {
                    let _gone = self.fresh.pop_front();
                }
            }
        }
        first_in(list, Rank::Newcomer)
    }

    /// The old one who used up the least work.
    fn first_old(&mut self, list: &WaitingList) -> Option<u64> {
        'gone: for _ in 0..self.old.len() {
            match self.old.first() {
                Some(standing) if stands_in(list, standing.ticket, Rank::Woken) => {
                    return Some(standing.ticket);
                }
                _ => {
                    let _gone = self.old.pop_first();
                }
            }
        }
        first_in(list, Rank::Woken)
    }

    /// Whose turn it is.
    pub(crate) fn first(&mut self, list: &WaitingList) -> Option<u64> {
        if self.is_newcomers {
            let fresh = self.first_fresh(list);
            if fresh.is_some() {
                return fresh;
            }
            self.first_old(list)
        } else {
            let old = self.first_old(list);
            if old.is_some() {
                return old;
            }
            self.first_fresh(list)
        }
    }
}
