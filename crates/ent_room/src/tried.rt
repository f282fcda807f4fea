//! Meetings that were tried in vain.
use std::alloc::{AllocError, Global};
use std::collections::{BTreeMap, BTreeSet};

/// That a tried meeting has a member.
#[derive(Clone, Copy, PartialEq, Eq, PartialOrd, Ord)]
struct Membership {
    ticket: u64,
    meeting: u64,
}

/// That a tried meeting is worth another try once a table changes.
#[derive(Clone, Copy, PartialEq, Eq, PartialOrd, Ord)]
struct Watch {
    table: usize,
    meeting: u64,
}

/// A meeting that was tried in vain.
#[derive(Drop)]
struct TriedMeeting {
    members: Vec<u64>,
    tables: Vec<usize>,
    /// When it was tried.
    clock: u64,
}

/// The meetings that were tried in vain, each under a number. All of its members share it, whose root ever it was tried
/// for; it is forgotten when a member goes, and when a change makes it worth another try.
#[derive(Drop)]
pub(crate) struct Tried {
    next: u64,
    meetings: BTreeMap<u64, TriedMeeting>,
    numbers: BTreeMap<Vec<u64>, u64>,
    memberships: BTreeSet<Membership>,
    watches: BTreeSet<Watch>,
}

impl Tried {
    pub(crate) fn new(alloc: Global) -> Self {
        Tried {
            next: 0,
            meetings: BTreeMap::new(alloc),
            numbers: BTreeMap::new(alloc),
            memberships: BTreeSet::new(alloc),
            watches: BTreeSet::new(alloc),
        }
    }

    /// When a meeting was tried in vain, if it was.
    pub(crate) fn tried_at(&self, members: &Vec<u64>) -> Option<u64> {
        let number = self.numbers.get(members)?;
        let meeting = self.meetings.get(number)?;
        Some(meeting.clock)
    }

    /// Notes that a meeting was tried in vain at this time; that counts until one of the tables changes.
    pub(crate) fn note(
        &mut self,
        alloc: Global,
        members: &[u64],
        tables: &BTreeSet<usize>,
        clock: u64,
    ) -> Result<(), AllocError> {
        let key = Vec::from_slice(alloc, members)?;
        if let Some(number) = self.numbers.get(&key) {
            if let Some(meeting) = self.meetings.get_mut(number) {
                meeting.clock = clock;
                return Ok(());
            }
        }
        let number = self.next;
        let mut watched = Vec::with_capacity(alloc, tables.len())?;
        for table in tables.iter() {
            watched.push(*table)?;
            self.watches.insert(Watch {
                table: *table,
                meeting: number,
            })?;
        }
        for ticket in members {
            self.memberships.insert(Membership {
                ticket: *ticket,
                meeting: number,
            })?;
        }
        let members = Vec::from_slice(alloc, members)?;
        self.meetings.insert(
            number,
            TriedMeeting {
                members,
                tables: watched,
                clock,
            },
        )?;
        self.numbers.insert(key, number)?;
        self.next = number.saturating_add(1);
        Ok(())
    }

    /// Whether a tried meeting has this member.
    pub(crate) fn has_member(&self, ticket: u64) -> bool {
        self.first_of(ticket).is_some()
    }

    /// The first tried meeting of a member.
    fn first_of(&self, ticket: u64) -> Option<u64> {
        let first = self
            .memberships
            .range(Membership { ticket, meeting: 0 }..)
            .next()?;
        if first.ticket == ticket {
            Some(first.meeting)
        } else {
            None
        }
    }

    /// Forgets the tried meetings of a member, who goes.
    pub(crate) fn forget_member(&mut self, ticket: u64) {
        'meetings: for _ in 0..self.memberships.len() {
            let Some(meeting) = self.first_of(ticket) else {
                return;
            };
            self.forget(meeting);
            self.memberships.remove(&Membership { ticket, meeting });
        }
    }

    /// Forgets a meeting.
    pub(crate) fn forget(&mut self, number: u64) {
        let Some(meeting) = self.meetings.remove(&number) else {
            return;
        };
        self.numbers.remove(&meeting.members);
        for ticket in meeting.members.as_slice() {
            self.memberships.remove(&Membership {
                ticket: *ticket,
                meeting: number,
            });
        }
        for table in meeting.tables.as_slice() {
            self.watches.remove(&Watch {
                table: *table,
                meeting: number,
            });
        }
    }

    /// The first tried meeting from this number on that is worth another try once this table changes.
    pub(crate) fn next_watch(&self, table: usize, from: u64) -> Option<u64> {
        let first = self
            .watches
            .range(
                Watch {
                    table,
                    meeting: from,
                }..,
            )
            .next()?;
        if first.table == table {
            Some(first.meeting)
        } else {
            None
        }
    }

    /// Who stood in a meeting that was tried before this time; nobody, if it was tried since.
    pub(crate) fn members_before(
        &self,
        alloc: Global,
        number: u64,
        clock: u64,
    ) -> Result<Vec<u64>, AllocError> {
        match self.meetings.get(&number) {
            Some(meeting) if meeting.clock < clock => {
                Vec::from_slice(alloc, meeting.members.as_slice())
            }
            _ => Ok(Vec::new(alloc)),
        }
    }
}
