//! What a room remembers of those who wait: what their texts tell, what was tried, and whose turn it is.
ghost use Rattle.std.specs.Prelude.{◌≤◌, IfSome};

use crate::batch::Batch;
use crate::clocks::{Clocks, Visit};
use crate::crowd::Crowd;
use crate::order::Order;
use crate::profile::{Profile, number_of};
use crate::root::{Around, Move, Root};
use crate::tried::Tried;
use crate::work::Work;
use ent_feed::Group;
use ent_meetings::{Index, Party};
use ent_tree::{Create, Script};
use ent_value::Name;
use ent_waiting::{Rank, Ticket, WaitingList, WaitingPlace};
use std::alloc::{AllocError, Global};
use std::collections::{BTreeMap, BTreeSet};

/// Those who wait and have an entangled statement.
#[derive(Drop)]
pub(crate) struct Prospects {
    profiles: BTreeMap<u64, Profile>,
    roots: BTreeMap<u64, Root>,
    tried: Tried,
    pub(crate) clocks: Clocks,
    pub(crate) order: Order,
    /// Those who rest since a bound was reached.
    cut: BTreeSet<u64>,
}

impl Prospects {
    /// Nobody waits, over so many tables.
    pub(crate) fn new(alloc: Global, tables: usize) -> Result<Self, AllocError> {
        Ok(Prospects {
            profiles: BTreeMap::new(alloc),
            roots: BTreeMap::new(alloc),
            tried: Tried::new(alloc),
            clocks: Clocks::new(alloc, tables)?,
            order: Order::new(alloc),
            cut: BTreeSet::new(alloc),
        })
    }

    /// A script comes under a ticket, as a newcomer; false where nothing is noted, since it is an ordinary one, or is
    /// there already.
    pub(crate) fn come(
        &mut self,
        alloc: Global,
        declared: &[Create],
        ticket: u64,
        script: &Script,
    ) -> Result<bool, AllocError> {
        let party = Party::of(alloc, script)?;
        let profile = Profile::of(alloc, declared, script, &party)?;
        if profile.statements == 0 || self.roots.contains_key(&ticket) {
            return Ok(false);
        }
        self.order.come(ticket)?;
        match self.note(ticket, profile) {
            Ok(()) => Ok(true),
            Err(AllocError) => {
                self.take_back(ticket);
                Err(AllocError)
            }
        }
    }

    /// Notes who came.
    fn note(&mut self, ticket: u64, profile: Profile) -> Result<(), AllocError> {
        self.profiles.insert(ticket, profile)?;
        self.roots.insert(ticket, Root::new(ticket))?;
        Ok(())
    }

    /// The last who came isn't there after all.
    pub(crate) fn take_back(&mut self, ticket: u64) {
        self.order.take_back();
        self.forget(ticket);
    }

    /// Somebody goes.
    pub(crate) fn forget(&mut self, ticket: u64) {
        if let Some(root) = self.roots.remove(&ticket) {
            self.order.leave(ticket, root.work);
        }
        self.profiles.remove(&ticket);
        self.cut.remove(&ticket);
        self.tried.forget_member(ticket);
    }

    /// Whether a meeting of somebody was tried in vain.
    pub(crate) fn has_tried(&self, ticket: u64) -> bool {
        self.tried.has_member(ticket)
    }

    /// Whether somebody rests since a bound was reached.
    pub(crate) fn is_cut(&self, ticket: u64) -> bool {
        self.cut.contains(&ticket)
    }

    /// The first of those who rest since a bound was reached, from a ticket on.
    pub(crate) fn next_cut(&self, from: u64) -> Option<u64>
        ensures { IfSome result (λ ticket. from ≤ ticket) }
    {
        self.cut.range(from..).next().copied()
    }

    /// The work that a root used up.
    fn work_of(&self, ticket: u64) -> u64 {
        match self.roots.get(&ticket) {
            Some(root) => root.work,
            None => 0,
        }
    }

    /// What a root does next.
    pub(crate) fn next_move<'a>(
        &'a mut self,
        alloc: Global,
        index: &'a Index,
        list: &'a WaitingList,
        ticket: u64,
        work: &mut Work,
    ) -> Result<Move, AllocError> {
        let around = Around {
            alloc,
            crowd: Crowd {
                index,
                profiles: &self.profiles,
            },
            list,
            tried: &self.tried,
            clocks: &self.clocks,
        };
        match self.roots.get_mut(&ticket) {
            Some(root) => root.next_move(around, work),
            None => Ok(Move::Rest { is_cut: false }),
        }
    }

    /// Whether a root has told all who demand what it offers that it came.
    pub(crate) fn is_told(&self, ticket: u64) -> bool {
        match self.roots.get(&ticket) {
            Some(root) => root.is_told(),
            None => true,
        }
    }

    /// A root has told this one that it came.
    pub(crate) fn has_told(&mut self, root: u64, ticket: u64) {
        if let Some(root) = self.roots.get_mut(&root) {
            root.has_told(ticket);
        }
    }

    /// Something changed for somebody who is ready, or comes to be.
    pub(crate) fn change(&mut self, ticket: u64) {
        if let Some(root) = self.roots.get_mut(&ticket) {
            root.change();
        }
        self.cut.remove(&ticket);
    }

    /// Somebody whom a bound stopped goes on.
    pub(crate) fn go_further(&mut self, ticket: u64) {
        if let Some(root) = self.roots.get_mut(&ticket) {
            root.go_further();
        }
        self.cut.remove(&ticket);
    }

    /// A root comes to the old ones.
    pub(crate) fn grow_old(&mut self, ticket: u64) -> Result<(), AllocError> {
        let before = self.work_of(ticket);
        let work = self.order.work_of_entrant(before);
        self.order.grow_old(ticket, work)?;
        if let Some(root) = self.roots.get_mut(&ticket) {
            root.work = work;
        }
        Ok(())
    }

    /// An old root had its turn, which cost so much; it comes to the old ones again, or rests.
    pub(crate) fn charge(&mut self, ticket: u64, cost: u64, is_old: bool) {
        let before = self.work_of(ticket);
        if is_old {
            self.order.leave(ticket, before);
            self.order.rise(before);
        } else {
            self.order.pass(ticket);
        }
        if let Some(root) = self.roots.get_mut(&ticket) {
            root.work = before.saturating_add(cost.max(1));
        }
    }

    /// A root gives way to another one.
    pub(crate) fn give_way(&mut self, ticket: u64, first: u64) {
        let more = self.work_of(first).saturating_add(1);
        if let Some(root) = self.roots.get_mut(&ticket) {
            root.work = root.work.max(more);
        }
    }

    /// A root rests since a bound was reached.
    pub(crate) fn cut(&mut self, ticket: u64) -> Result<(), AllocError> {
        self.cut.insert(ticket)?;
        Ok(())
    }

    /// Notes that a meeting was run in vain, or can't be made up. Of an ordinary script nothing is noted.
    pub(crate) fn note_tried(&mut self, alloc: Global, batch: &Batch) -> Result<(), AllocError> {
        if batch.rank == Rank::Ordinary {
            return Ok(());
        }
        let members = batch.tickets.as_slice();
        let mut tables = BTreeSet::new(alloc);
        for ticket in members {
            if let Some(profile) = self.profiles.get(ticket) {
                for table in profile.tables.iter() {
                    tables.insert(*table)?;
                }
            }
        }
        self.tried.note(alloc, members, &tables, self.clocks.now())
    }

    /// These tables changed.
    pub(crate) fn change_tables(&mut self, declared: &[Create], names: &[Name]) {
        for name in names {
            if let Some(number) = number_of(declared, name) {
                self.clocks.change(number);
            }
        }
    }

    /// The tables changed of which groups tell that they did. There are so many; where they aren't all kept, each table
    /// may have changed.
    pub(crate) fn note_changes(&mut self, declared: &[Create], groups: &[Group], told: u64) {
        if (groups.len() as u64) < told {
            self.clocks.change_all();
            return;
        }
        for group in groups {
            for change in group.changes.as_slice() {
                if let Some(number) = number_of(declared, &change.table) {
                    self.clocks.change(number);
                }
            }
        }
    }

    /// Those of the next tried meeting that a change made worth another try; nobody, where it isn't.
    pub(crate) fn visited(&self, alloc: Global, visit: Visit) -> Result<Vec<u64>, AllocError> {
        match self.tried.next_watch(visit.table, visit.from) {
            Some(number) => self.tried.members_before(alloc, number, visit.changed),
            None => Ok(Vec::new(alloc)),
        }
    }

    /// A visit is over: its meeting is forgotten, where it is worth another try.
    pub(crate) fn end_visit(&mut self, visit: Visit, is_worth: bool) {
        let found = self.tried.next_watch(visit.table, visit.from);
        if let Some(number) = found {
            if is_worth {
                self.tried.forget(number);
            }
        }
        self.clocks.visited(visit.table, found);
    }
}

/// Whether somebody rests.
pub(crate) fn rests(list: &WaitingList, ticket: u64) -> bool {
    match list.waiter(Ticket::new(ticket)) {
        Some(waiter) => waiter.place == WaitingPlace::Resting,
        None => false,
    }
}
