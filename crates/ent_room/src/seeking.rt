//! A search for the meetings of a root that goes on where it stopped.
use crate::crowd::{Crowd, Demand};
use crate::work::Work;
use ent_group::MOST_MEMBERS;
use ent_meetings::Next;
use std::alloc::{AllocError, Global};

/// So many steps one call makes at most.
const MOST_STEPS: usize = 65_536;
/// Sets have at most so many more than they need.
const MOST_EXTRAS: usize = 3;

/// What a search found.
#[derive(Drop)]
pub(crate) enum Sought {
    /// A closed set with the root: its tickets, ascending.
    Meeting(Vec<u64>),
    /// The work is over; the search goes on there.
    Stopped,
    /// There is no other set.
    Nobody,
}

/// What a search does next.
#[derive(Clone, Copy, PartialEq, Eq)]
enum Heading {
    /// It begins a pass.
    Begin,
    /// It looks at the next demand.
    Forward,
    /// It takes the next one for the demand that it chose for last.
    Back,
    /// All passes are over.
    Over,
}

/// A demand for which somebody is chosen: how many were chosen before, and how many demands they had; and of those who
/// may meet it the last one who was.
#[derive(Clone, Copy)]
struct Choice {
    at: usize,
    chosen: usize,
    agenda: usize,
    extras: usize,
    last: Option<u64>,
}

/// A search for the meetings of a root. It goes on where it stopped, also when others came or went meanwhile: who went is
/// cut out, and who came is found by what isn't passed yet.
///
/// It begins with the root, and goes through the demands of the chosen in their order. For a demand that none of them
/// may meet, it chooses each who may, by arrival. Pass 0 has those sets alone; pass 1 those with one more, chosen for a
/// demand that the tables might keep the others from meeting; and so on, up to three more.
#[derive(Drop)]
pub(crate) struct Seeking {
    root: u64,
    chosen: Vec<u64>,
    /// The demands of the chosen, in the order in which they came.
    agenda: Vec<Demand>,
    at: usize,
    /// How many more than are needed may still come in this pass.
    extras: usize,
    pass: usize,
    /// Whether somebody may come in the next pass.
    has_more: bool,
    choices: Vec<Choice>,
    heading: Heading,
}

impl Seeking {
    pub(crate) fn new(alloc: Global, root: u64) -> Self {
        Seeking {
            root,
            chosen: Vec::new(alloc),
            agenda: Vec::new(alloc),
            at: 0,
            extras: 0,
            pass: 0,
            has_more: false,
            choices: Vec::new(alloc),
            heading: Heading::Begin,
        }
    }

    /// The next set of the root.
    pub(crate) fn next(
        &mut self,
        alloc: Global,
        crowd: Crowd<'_>,
        work: &mut Work,
    ) -> Result<Sought, AllocError> {
        self.cut_out(crowd);
        'steps: for _ in 0..MOST_STEPS {
            if work.is_over() {
                return Ok(Sought::Stopped);
            }
            work.compare(1);
            match self.heading {
                Heading::Begin => self.begin(crowd)?,
                Heading::Back => self.back(crowd, work)?,
                Heading::Over => return Ok(Sought::Nobody),
                Heading::Forward => {
                    if let Some(meeting) = self.forward(alloc, crowd, work)? {
                        return Ok(Sought::Meeting(meeting));
                    }
                }
            }
        }
        Ok(Sought::Stopped)
    }

    /// Those who went are cut out, with all who were chosen after them.
    fn cut_out(&mut self, crowd: Crowd<'_>) {
        let gone = self
            .chosen
            .as_slice()
            .iter()
            .position(|ticket| !crowd.index.contains(*ticket));
        let Some(gone) = gone else {
            return;
        };
        if gone == 0 {
            self.heading = Heading::Over;
            return;
        }
        let kept = self
            .choices
            .as_slice()
            .iter()
            .position(|choice| choice.chosen > gone);
        if let Some(kept) = kept {
            self.choices.truncate(kept);
        }
        self.heading = Heading::Back;
    }

    /// A pass begins with the root.
    fn begin(&mut self, crowd: Crowd<'_>) -> Result<(), AllocError> {
        self.chosen.clear();
        self.agenda.clear();
        self.choices.clear();
        self.has_more = false;
        self.come(crowd, self.root)?;
        self.at = 0;
        self.extras = self.pass;
        self.heading = Heading::Forward;
        Ok(())
    }

    /// Somebody is chosen, whose demands come last.
    fn come(&mut self, crowd: Crowd<'_>, ticket: u64) -> Result<(), AllocError> {
        for place in 0..crowd.demands(ticket) {
            self.agenda.push(Demand {
                owner: ticket,
                place,
            })?;
        }
        self.chosen.push(ticket)?;
        Ok(())
    }

    /// Looks at the next demand of the chosen; the set, if there is none.
    fn forward(
        &mut self,
        alloc: Global,
        crowd: Crowd<'_>,
        work: &mut Work,
    ) -> Result<Option<Vec<u64>>, AllocError> {
        let Some(demand) = self.agenda.as_slice().get(self.at).copied() else {
            return self.take(alloc);
        };
        let ways = crowd.ways(demand, self.chosen.as_slice(), work);
        if ways.may == 0 || self.is_short(crowd, demand, work) {
            self.choose(self.extras)?;
            self.heading = Heading::Back;
        } else if ways.surely > 0 && crowd.are_single(self.chosen.as_slice()) {
            self.pass_surely(ways.surely);
        } else if self.extras > 0 {
            self.choose(self.extras.saturating_sub(1))?;
            self.at = self.at.saturating_add(1);
        } else {
            self.look_for_more(crowd, demand, work);
            self.at = self.at.saturating_add(1);
        }
        Ok(None)
    }

    /// Whether those who may meet a demand are all taken by other statements of its owner: the statement of a script that
    /// has one is answered once, together with one statement of each other script.
    fn is_short(&self, crowd: Crowd<'_>, demand: Demand, work: &mut Work) -> bool {
        if crowd.is_single(demand.owner) {
            return false;
        }
        let mut meeters: usize = 0;
        for ticket in self.chosen.as_slice() {
            if crowd.ways_of(demand, *ticket, work).may > 0 {
                if *ticket == demand.owner || !crowd.is_single(*ticket) {
                    return false;
                }
                meeters = meeters.saturating_add(1);
            }
        }
        self.like_statements(crowd, demand, work) >= meeters
    }

    /// How many statements of its owner before that of a demand have one that nobody of the chosen may meet who may not
    /// meet this one too.
    fn like_statements(&self, crowd: Crowd<'_>, demand: Demand, work: &mut Work) -> usize {
        let own = crowd.statement_of(demand);
        let (mut count, mut last) = (0usize, None);
        for earlier in self.agenda.as_slice().iter().take(self.at) {
            let statement = crowd.statement_of(*earlier);
            if earlier.owner == demand.owner
                && statement != own
                && statement != last
                && self.is_like(crowd, *earlier, demand, work)
            {
                count = count.saturating_add(1);
                last = statement;
            }
        }
        count
    }

    /// Whether each of the chosen who may meet the one demand may meet the other too.
    fn is_like(&self, crowd: Crowd<'_>, one: Demand, other: Demand, work: &mut Work) -> bool {
        for ticket in self.chosen.as_slice() {
            if crowd.ways_of(one, *ticket, work).may > 0
                && crowd.ways_of(other, *ticket, work).may == 0
            {
                return false;
            }
        }
        true
    }

    /// A demand is surely met: if two offers meet it, a core holds one of them back, so that the set has no answer.
    fn pass_surely(&mut self, offers: u64) {
        if offers > 1 {
            self.heading = Heading::Back;
        } else {
            self.at = self.at.saturating_add(1);
        }
    }

    /// Somebody is to be chosen for the demand at which the search stands.
    fn choose(&mut self, extras: usize) -> Result<(), AllocError> {
        self.choices.push(Choice {
            at: self.at,
            chosen: self.chosen.len(),
            agenda: self.agenda.len(),
            extras,
            last: None,
        })?;
        Ok(())
    }

    /// The chosen are handed out, if as many more came as this pass is for.
    fn take(&mut self, alloc: Global) -> Result<Option<Vec<u64>>, AllocError> {
        if self.extras > 0 {
            self.heading = Heading::Back;
            return Ok(None);
        }
        let mut meeting = Vec::from_slice(alloc, self.chosen.as_slice())?;
        meeting.sort()?;
        self.heading = Heading::Back;
        Ok(Some(meeting))
    }

    /// Notes if somebody else may meet a demand that the chosen only may meet.
    fn look_for_more(&mut self, crowd: Crowd<'_>, demand: Demand, work: &mut Work) {
        let Some(pattern) = crowd.pattern(demand) else {
            return;
        };
        let mut last = None;
        'others: for _ in 0..=MOST_MEMBERS {
            if self.has_more {
                return;
            }
            work.compare(1);
            let mut looks = 1;
            match crowd.index.next_offerer(pattern, last, &mut looks) {
                Next::Nobody => return,
                Next::Stopped(passed) => last = passed,
                Next::Found(ticket) => {
                    last = Some(ticket);
                    self.has_more = !self.chosen.as_slice().contains(&ticket)
                        && crowd.ways_of(demand, ticket, work).may > 0;
                }
            }
        }
        self.has_more = true;
    }

    /// The next one is chosen for the last demand for which somebody was, or the search goes back from it.
    fn back(&mut self, crowd: Crowd<'_>, work: &mut Work) -> Result<(), AllocError> {
        let Some(choice) = self.choices.as_slice().last().copied() else {
            self.pass_over();
            return Ok(());
        };
        self.chosen.truncate(choice.chosen);
        self.agenda.truncate(choice.agenda);
        match self.next_for(crowd, choice, work) {
            Next::Nobody => {
                let _passed = self.choices.pop();
            }
            Next::Stopped(last) => self.went_on(last),
            Next::Found(ticket) => {
                if self.may_come(crowd, choice, ticket, work) {
                    self.come(crowd, ticket)?;
                    self.at = choice.at.saturating_add(1);
                    self.extras = choice.extras;
                    self.heading = Heading::Forward;
                }
                self.went_on(Some(ticket));
            }
        }
        Ok(())
    }

    /// Who comes next of those who may meet the demand of a choice.
    fn next_for(&self, crowd: Crowd<'_>, choice: Choice, work: &mut Work) -> Next {
        if self.chosen.len() >= MOST_MEMBERS {
            return Next::Nobody;
        }
        let Some(demand) = self.agenda.as_slice().get(choice.at).copied() else {
            return Next::Nobody;
        };
        let Some(pattern) = crowd.pattern(demand) else {
            return Next::Nobody;
        };
        let mut looks = 1;
        let next = crowd.index.next_offerer(pattern, choice.last, &mut looks);
        if let Next::Stopped(Some(ticket)) = &next {
            work.compare(crowd.patterns(*ticket));
        }
        next
    }

    /// All up to this one were looked at for the last choice.
    fn went_on(&mut self, last: Option<u64>) {
        if let Some(choice) = self.choices.last_mut() {
            choice.last = last;
        }
    }

    /// The last choice of a pass is over.
    fn pass_over(&mut self) {
        if self.has_more && self.pass < MOST_EXTRAS {
            self.pass = self.pass.saturating_add(1);
            self.heading = Heading::Begin;
        } else {
            self.heading = Heading::Over;
        }
    }

    /// Whether somebody may be chosen for a demand.
    fn may_come(&self, crowd: Crowd<'_>, choice: Choice, ticket: u64, work: &mut Work) -> bool {
        let Some(demand) = self.agenda.as_slice().get(choice.at).copied() else {
            return false;
        };
        !self.chosen.as_slice().contains(&ticket)
            && crowd.ways_of(demand, ticket, work).may > 0
            && !crowd.is_lonely(ticket, work)
            && !self.is_crowding(crowd, choice.at, ticket, work)
    }

    /// Whether somebody who comes surely meets a demand, of those before this place, that another one meets surely.
    fn is_crowding(&self, crowd: Crowd<'_>, at: usize, ticket: u64, work: &mut Work) -> bool {
        let chosen = self.chosen.as_slice();
        if !crowd.is_single(ticket) || !crowd.are_single(chosen) {
            return false;
        }
        for demand in self.agenda.as_slice().iter().take(at) {
            if crowd.ways_of(*demand, ticket, work).surely > 0
                && crowd.ways(*demand, chosen, work).surely > 0
            {
                return true;
            }
        }
        false
    }
}
