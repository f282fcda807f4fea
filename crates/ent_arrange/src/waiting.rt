//! Meetings of those who wait.
ghost use Rattle.std.specs.Prelude.{◌≤◌, OnOk};
ghost use Rattle.ent_meetings.specs.Waiting.{Waits};
ghost use Rattle.ent_arrange.specs.Doubts.{work_of};

use crate::doubts::Doubts;
use crate::meeting::{Meeting, MeetingMember};
use ent_group::MOST_MEMBERS;
use ent_meetings::{Found, Index, Party, Search, widen};
use ent_tree::Script;
use std::alloc::{AllocError, Global};

/// How many of those who wait are looked at for one script: fewer than one call may look at, since there are thousands
/// of scripts.
const MOST_LOOKS: usize = 256;

/// How much a search weighs that stops before it knows. One that ends, and finds no meeting, weighs 1: its script is
/// left out, and isn't come across again.
const WEIGHT_OF_A_STOP: usize = 16;

/// Once searches in vain weigh so much, as many are looked at for one script as a meeting has members: enough where
/// each demand is met by the first who may.
const MANY_IN_VAIN: usize = 16 * WEIGHT_OF_A_STOP;

/// Once they weigh so much, [`FEWEST_LOOKS`] are.
const TOO_MANY_IN_VAIN: usize = 512 * WEIGHT_OF_A_STOP;

/// How many are looked at for one script at least.
const FEWEST_LOOKS: usize = 16;

/// The scripts that aren't in a meeting yet.
#[derive(Drop)]
pub(crate) struct Waiting {
    /// Those who may get into one. A ticket is the script's place in the input.
    index: Index,
    /// Those who get into none.
    left: Vec<MeetingMember>,
    /// Those who may get into one, and may demand what nobody may offer of these.
    doubts: Doubts,
    /// How much the searches weigh that found no meeting.
    vain: usize,
}

impl Waiting {
    /// Nobody waits.
    fn new(alloc: Global) -> Self {
        Waiting {
            index: Index::new(alloc),
            left: Vec::new(alloc),
            doubts: Doubts::new(alloc),
            vain: 0,
        }
    }

    /// All scripts of an input.
    pub(crate) fn of(alloc: Global, scripts: &[Script]) -> Result<Self, AllocError> {
        let mut waiting = Waiting::new(alloc);
        for (place, script) in scripts.iter().enumerate() {
            let party = Party::of(alloc, script)?;
            waiting.add(MeetingMember {
                script: place,
                party,
            })?;
        }
        Ok(waiting)
    }

    /// One more waits, unless it does already.
    fn add(&mut self, member: MeetingMember) -> Result<(), AllocError> {
        let ticket = member.script as u64;
        if self.index.contains(ticket) {
            return Ok(());
        }
        self.index.insert(ticket, member.party)?;
        self.doubts.add(ticket)
    }

    /// The meeting of a script, if one is found with those who wait: it and those in it wait no more.
    ///
    /// It is the first that a search finds: one in which each demand is met by one offer alone, if there is one. Then
    /// those come to it whose demands it meets. A script that stands in no meeting waits no more, since nobody has one
    /// with it.
    pub(crate) fn meet(
        &mut self,
        alloc: Global,
        script: usize,
    ) -> Result<Option<Meeting>, AllocError> {
        self.part()?;
        let root = script as u64;
        if !self.index.contains(root) {
            return Ok(None);
        }
        let vain = match self.search(alloc, root)? {
            Found::Meeting(tickets) => return Ok(Some(self.take(alloc, tickets.as_slice())?)),
            Found::Stopped(_) => WEIGHT_OF_A_STOP,
            Found::Lonely | Found::Nobody => {
                self.leave(root)?;
                1
            }
        };
        self.vain = self.vain.saturating_add(vain);
        Ok(None)
    }

    /// How many may be looked at for one script: the fewer, the more searches were in vain.
    fn most_looks(&self) -> usize {
        if self.vain < MANY_IN_VAIN {
            MOST_LOOKS
        } else if self.vain < TOO_MANY_IN_VAIN {
            MOST_MEMBERS
        } else {
            FEWEST_LOOKS
        }
    }

    /// The first meeting of a script that a search finds, with those whose demands it meets.
    fn search(&self, alloc: Global, root: u64) -> Result<Found, AllocError>
        requires waits { Waits self.now.index root }
    {
        let mut looks = self.most_looks();
        let mut search = Search::new(alloc, &self.index, root)?;
        match search.next(alloc, &self.index, &mut looks)? {
            Found::Meeting(tickets) => {
                let wider = widen(alloc, &self.index, tickets, &mut looks)?;
                Ok(Found::Meeting(wider))
            }
            other => Ok(other),
        }
    }

    /// Those who are in no meeting: the lonely ones, and the others, each in order. Whoever stands in no set of these
    /// in which each demand may be met is lonely, as far as that was looked at.
    pub(crate) fn left(
        self,
        alloc: Global,
        scripts: usize,
    ) -> Result<(Vec<MeetingMember>, Vec<MeetingMember>), AllocError> {
        let Waiting { index, left, .. } = self;
        let mut rest = Waiting::new(alloc);
        for member in left {
            rest.add(member)?;
        }
        for member in members(alloc, index, scripts)? {
            rest.add(member)?;
        }
        rest.part()?;
        let Waiting {
            index,
            left: mut lonely,
            ..
        } = rest;
        lonely.sort_by_key(|member| member.script)?;
        Ok((lonely, members(alloc, index, scripts)?))
    }

    /// Whoever demands what nobody may offer who waits gets into no meeting, and so on.
    fn part(&mut self) -> Result<(), AllocError> {
        while let Some(ticket) = self.doubts.pop() {
            self.part_from(ticket)?;
        }
        Ok(())
    }

    /// Who waits under a ticket gets into no meeting if it demands what nobody may offer who waits.
    fn part_from(&mut self, ticket: u64) -> Result<(), AllocError>
        ensures work { OnOk result (work_of self.new.doubts ≤ work_of self.old.doubts) }
    {
        if self.doubts.has_no_hope(&self.index, ticket) {
            self.leave(ticket)?;
        }
        Ok(())
    }

    /// These wait no more.
    fn take(&mut self, alloc: Global, tickets: &[u64]) -> Result<Meeting, AllocError> {
        let mut members = Vec::with_capacity(alloc, tickets.len())?;
        for ticket in tickets {
            if let Some(member) = self.remove(*ticket)? {
                members.push(member)?;
            }
        }
        Ok(Meeting { members })
    }

    /// This one gets into no meeting.
    fn leave(&mut self, ticket: u64) -> Result<(), AllocError>
        ensures work { OnOk result (work_of self.new.doubts ≤ work_of self.old.doubts) }
    {
        if let Some(member) = self.remove(ticket)? {
            self.left.push(member)?;
        }
        Ok(())
    }

    /// This one waits no more, and those get doubtful who demand what it offers.
    fn remove(&mut self, ticket: u64) -> Result<Option<MeetingMember>, AllocError>
        ensures work { OnOk result (work_of self.new.doubts ≤ work_of self.old.doubts) }
    {
        let Some(party) = self.index.remove(ticket) else {
            return Ok(None);
        };
        for offer in party.offers.as_slice() {
            self.doubts.add_demanders(&self.index, offer)?;
        }
        let script = ticket as usize;
        Ok(Some(MeetingMember { script, party }))
    }
}

/// Those of an index, of so many scripts, in order.
fn members(
    alloc: Global,
    mut index: Index,
    scripts: usize,
) -> Result<Vec<MeetingMember>, AllocError> {
    let mut members = Vec::new(alloc);
    for script in 0..scripts {
        if let Some(party) = index.remove(script as u64) {
            members.push(MeetingMember { script, party })?;
        }
    }
    Ok(members)
}
