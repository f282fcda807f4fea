//! What a root does: it tells others that it came, searches its meetings, and tries them.
use crate::clocks::Clocks;
use crate::crowd::Crowd;
use crate::seeking::{Seeking, Sought};
use crate::tried::Tried;
use crate::widening::{MOST_PARTS, others_of, part_of, with_some};
use crate::work::{MOST_COMPARED, MOST_OF_TURN, MOST_OF_WIDENING, MOST_TRIES, Work};
use ent_meetings::Next;
use ent_waiting::{Rank, Ticket, WaitingList, WaitingPlace};
use std::alloc::{AllocError, Global};

/// So often a root gives way for one meeting.
const MOST_WAYS_GIVEN: u64 = 256;

/// A set of those who wait that a root has run.
#[derive(Drop)]
pub(crate) struct Chosen {
    pub(crate) members: Vec<u64>,
    /// Whether nobody widens it, so that it counts as a try of its root.
    pub(crate) is_plain: bool,
}

/// What a root does next.
#[derive(Drop)]
pub(crate) enum Move {
    /// It tells this one, who demands what it offers, that it came.
    Tell(u64),
    /// All were told.
    Told,
    /// These are run by themselves.
    Run(Chosen),
    /// It gives way to this one, whose turn is to come first.
    GiveWay(u64),
    /// The work of its turn is over.
    Stop,
    /// It rests until something changes, since no meeting is left to try, or since a bound was reached: it is cut.
    Rest { is_cut: bool },
}

impl Move {
    /// Whom it tells that the root came.
    pub(crate) fn told(&self) -> Option<u64> {
        match self {
            Move::Tell(ticket) => Some(*ticket),
            _ => None,
        }
    }
}

/// Which of its searches a root goes on with.
#[derive(Clone, Copy, PartialEq, Eq)]
enum Part {
    /// One from the beginning, for half of the bounds.
    First,
    /// An earlier one, which a bound stopped.
    Earlier,
    /// The one from the beginning, for the rest.
    Last,
}

/// A meeting that is tried: widened by all, by parts of them, and then by nobody.
#[derive(Drop)]
struct Trial {
    members: Vec<u64>,
    /// Whether nobody else of it demands what the root offers.
    is_fan: bool,
    ways_given: u64,
    is_widened: bool,
    others: Vec<u64>,
    part: usize,
}

/// What a root has done so far.
#[derive(Drop)]
pub(crate) struct Root {
    ticket: u64,
    /// The work that it used up.
    pub(crate) work: u64,
    /// Of its offers those before this one are told.
    offer: usize,
    /// Of this one all who demand it up to this ticket know.
    after: Option<u64>,
    is_told: bool,
    /// Somebody whom it demands wasn't there.
    is_lonely: bool,
    /// Something changed for it since its search began.
    is_stale: bool,
    /// A bound stopped its search.
    is_stopped: bool,
    /// The meetings that it tried, and its comparisons, since something changed for it.
    tries: u64,
    compared: u64,
    part: Part,
    search: Option<Seeking>,
    earlier: Option<Seeking>,
    trial: Option<Trial>,
}

/// What a root sees of the others.
#[derive(Clone, Copy)]
pub(crate) struct Around<'a> {
    pub(crate) alloc: Global,
    pub(crate) crowd: Crowd<'a>,
    pub(crate) list: &'a WaitingList,
    pub(crate) tried: &'a Tried,
    pub(crate) clocks: &'a Clocks,
}

impl Around<'_> {
    /// Whether a meeting was tried in vain, and nothing that matters has changed since.
    fn was_tried(&self, members: &Vec<u64>) -> bool {
        let Some(at) = self.tried.tried_at(members) else {
            return false;
        };
        for ticket in members.as_slice() {
            if let Some(profile) = self.crowd.profiles.get(ticket) {
                for table in profile.tables.iter() {
                    if self.clocks.changed_at(*table) > at {
                        return false;
                    }
                }
            }
        }
        true
    }

    /// Whether somebody stands in a queue.
    fn is_ready(&self, ticket: u64) -> bool {
        match self.list.waiter(Ticket::new(ticket)) {
            Some(waiter) => matches!(
                waiter.place,
                WaitingPlace::Queued(Rank::Newcomer) | WaitingPlace::Queued(Rank::Woken)
            ),
            None => false,
        }
    }
}

/// The members of a meeting without one.
fn without(alloc: Global, members: &[u64], one: u64) -> Result<Vec<u64>, AllocError> {
    let mut others = Vec::new(alloc);
    for ticket in members {
        if *ticket != one {
            others.push(*ticket)?;
        }
    }
    Ok(others)
}

/// The next set of a search, where there is one.
fn next_of(
    search: &mut Option<Seeking>,
    around: Around<'_>,
    work: &mut Work,
) -> Result<Sought, AllocError> {
    match search {
        Some(search) => search.next(around.alloc, around.crowd, work),
        None => Ok(Sought::Nobody),
    }
}

impl Trial {
    /// The trial of a meeting of a root begins.
    fn new(around: Around<'_>, root: u64, members: Vec<u64>, work: &mut Work) -> Self {
        let is_fan = members.len() > 1 && !around.crowd.serves(root, members.as_slice(), work);
        Trial {
            members,
            is_fan,
            ways_given: 0,
            is_widened: false,
            others: Vec::new(around.alloc),
            part: 0,
        }
    }

    /// To whom a root gives way that nobody else of its meeting demands: to the first of the others who has a turn
    /// before it, as long as they weren't tried without it.
    fn first_of_others(
        &mut self,
        around: Around<'_>,
        root: u64,
    ) -> Result<Option<u64>, AllocError> {
        if !self.is_fan || self.ways_given >= MOST_WAYS_GIVEN {
            return Ok(None);
        }
        let others = without(around.alloc, self.members.as_slice(), root)?;
        if around.was_tried(&others) {
            return Ok(None);
        }
        let first = others
            .as_slice()
            .iter()
            .find(|ticket| around.is_ready(**ticket));
        self.ways_given = self.ways_given.saturating_add(1);
        Ok(first.copied())
    }

    /// The next set that is to be run; nothing, if the trial is over.
    fn next(&mut self, around: Around<'_>, work: &mut Work) -> Result<Option<Chosen>, AllocError> {
        if !self.is_widened {
            let mut own = Work::new(MOST_OF_WIDENING);
            let members = self.members.as_slice();
            self.others = others_of(around.alloc, around.crowd, members, &mut own)?;
            self.is_widened = true;
            work.charge(own.spent());
        }
        'parts: for _ in 0..MOST_PARTS {
            if self.part >= MOST_PARTS {
                break 'parts;
            }
            let wide = self.widened(around, work)?;
            if wide.len() > self.members.len() && !around.was_tried(&wide) {
                return Ok(Some(Chosen {
                    members: wide,
                    is_plain: false,
                }));
            }
            self.part = self.part.saturating_add(1);
        }
        let members = Vec::from_slice(around.alloc, self.members.as_slice())?;
        Ok(Some(Chosen {
            members,
            is_plain: true,
        }))
    }

    /// The meeting, widened by the next part.
    fn widened(&self, around: Around<'_>, work: &mut Work) -> Result<Vec<u64>, AllocError> {
        with_some(
            around.alloc,
            around.crowd,
            self.members.as_slice(),
            part_of(self.others.as_slice(), self.part),
            work,
        )
    }

    /// Whether somebody of it went, or it was tried in vain.
    fn is_over(&self, around: Around<'_>) -> bool {
        !around.crowd.all_wait(self.members.as_slice()) || around.was_tried(&self.members)
    }
}

impl Root {
    /// Somebody who comes, whose work begins so.
    pub(crate) fn new(ticket: u64) -> Self {
        Root {
            ticket,
            work: 0,
            offer: 0,
            after: None,
            is_told: false,
            is_lonely: false,
            is_stale: false,
            is_stopped: false,
            tries: 0,
            compared: 0,
            part: Part::First,
            search: None,
            earlier: None,
            trial: None,
        }
    }

    /// Something changed for it: it may try as many again, and begins a search anew once its present one is over.
    pub(crate) fn change(&mut self) {
        self.is_stale = true;
        self.go_further();
    }

    /// It may try as many again, and goes on where it stopped.
    pub(crate) fn go_further(&mut self) {
        self.tries = 0;
        self.compared = 0;
    }

    /// Whether all who demand what it offers know that it came.
    pub(crate) fn is_told(&self) -> bool {
        self.is_told
    }

    /// This one, who demands what it offers, was told.
    pub(crate) fn has_told(&mut self, ticket: u64) {
        self.after = Some(ticket);
    }

    /// What it does next.
    pub(crate) fn next_move(
        &mut self,
        around: Around<'_>,
        work: &mut Work,
    ) -> Result<Move, AllocError> {
        'moves: for _ in 0..MOST_OF_TURN {
            if work.is_over() {
                return Ok(Move::Stop);
            }
            work.compare(1);
            if let Some(next) = self.step(around, work)? {
                return Ok(next);
            }
        }
        Ok(Move::Stop)
    }

    /// One more step of what it does; what comes of it, if that is a move.
    fn step(&mut self, around: Around<'_>, work: &mut Work) -> Result<Option<Move>, AllocError> {
        if !self.is_told {
            return Ok(Some(self.tell(around, work)));
        }
        if self.is_stopped {
            self.go_on_from_stop();
        }
        if self.search.is_none() && self.trial.is_none() && self.part == Part::First {
            return Ok(self.begin(around, work));
        }
        if self.trial.is_some() {
            return self.go_on_trying(around, work);
        }
        self.seek(around, work)
    }

    /// The next one who is to be told that it came.
    fn tell(&mut self, around: Around<'_>, work: &mut Work) -> Move {
        let Some(party) = around.crowd.index.party(self.ticket) else {
            return Move::Told;
        };
        'demanders: for _ in 0..MOST_OF_TURN {
            let Some(offer) = party.offers.get(self.offer) else {
                self.is_told = true;
                return Move::Told;
            };
            if work.is_over() {
                return Move::Stop;
            }
            work.compare(1);
            let mut looks = 1;
            match around
                .crowd
                .index
                .next_demander(offer, self.after, &mut looks)
            {
                Next::Found(ticket) if ticket != self.ticket => return Move::Tell(ticket),
                Next::Found(ticket) => self.after = Some(ticket),
                Next::Stopped(passed) => self.after = passed,
                Next::Nobody => {
                    self.offer = self.offer.saturating_add(1);
                    self.after = None;
                }
            }
        }
        Move::Stop
    }

    /// A search from the beginning. Whoever lacks somebody rests; once they came, it is told to others that it did.
    fn begin(&mut self, around: Around<'_>, work: &mut Work) -> Option<Move> {
        self.is_stale = false;
        if around.crowd.is_lonely(self.ticket, work) {
            self.is_lonely = true;
            return Some(Move::Rest { is_cut: false });
        }
        if self.is_lonely {
            self.is_lonely = false;
            self.is_told = false;
            self.offer = 0;
            self.after = None;
            return None;
        }
        self.search = Some(Seeking::new(around.alloc, self.ticket));
        None
    }

    /// Goes on with a trial.
    fn go_on_trying(
        &mut self,
        around: Around<'_>,
        work: &mut Work,
    ) -> Result<Option<Move>, AllocError> {
        let Some(trial) = self.trial.as_mut() else {
            return Ok(None);
        };
        if trial.is_over(around) {
            self.trial = None;
            return Ok(self.look_at_bounds());
        }
        if let Some(first) = trial.first_of_others(around, self.ticket)? {
            return Ok(Some(Move::GiveWay(first)));
        }
        match trial.next(around, work)? {
            Some(chosen) => Ok(Some(Move::Run(chosen))),
            None => Ok(None),
        }
    }

    /// Goes on with a search.
    fn seek(&mut self, around: Around<'_>, work: &mut Work) -> Result<Option<Move>, AllocError> {
        let before = work.spent();
        let sought = match self.part {
            Part::Earlier => next_of(&mut self.earlier, around, work)?,
            Part::First | Part::Last => next_of(&mut self.search, around, work)?,
        };
        self.compared = self
            .compared
            .saturating_add(work.spent().saturating_sub(before));
        match sought {
            Sought::Nobody => Ok(self.search_over()),
            Sought::Stopped => Ok(self.look_at_bounds()),
            Sought::Meeting(members) => {
                if !around.was_tried(&members) {
                    self.tries = self.tries.saturating_add(1);
                    self.trial = Some(Trial::new(around, self.ticket, members, work));
                    return Ok(None);
                }
                Ok(self.look_at_bounds())
            }
        }
    }

    /// A search is over.
    fn search_over(&mut self) -> Option<Move> {
        self.earlier = None;
        if self.part == Part::Earlier {
            self.part = Part::Last;
            return None;
        }
        self.search = None;
        self.part = Part::First;
        if self.is_stale {
            None
        } else {
            Some(Move::Rest { is_cut: false })
        }
    }

    /// Where a bound is reached, the part of the search is over: half of it at a first one.
    fn look_at_bounds(&mut self) -> Option<Move> {
        let share = if self.part == Part::First { 2 } else { 1 };
        if self.compared.saturating_mul(share) <= MOST_COMPARED
            && self.tries.saturating_mul(share) <= MOST_TRIES
        {
            return None;
        }
        if self.is_stale {
            self.begin_anew();
            return None;
        }
        if self.part == Part::First {
            self.part = if self.earlier.is_some() {
                Part::Earlier
            } else {
                Part::Last
            };
            return None;
        }
        self.is_stopped = true;
        Some(Move::Rest { is_cut: true })
    }

    /// A search that a bound stopped goes on; after a change, one from the beginning comes first.
    fn go_on_from_stop(&mut self) {
        self.is_stopped = false;
        if self.is_stale {
            self.begin_anew();
        }
    }

    /// The next search is one from the beginning; where the present one stopped, the last part goes on.
    fn begin_anew(&mut self) {
        let present = self.search.take();
        if self.part != Part::Earlier || self.earlier.is_none() {
            if present.is_some() {
                self.earlier = present;
            }
        }
        self.part = Part::First;
    }
}
