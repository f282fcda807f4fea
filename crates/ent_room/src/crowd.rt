//! Those who wait, as a search sees them.
use crate::profile::Profile;
use crate::work::Work;
use ent_meetings::{Index, Next, Pattern};
use std::collections::BTreeMap;

/// So many offers are looked at to see whether somebody may meet a demand.
const MOST_OFFERERS: usize = 4;

/// A demand of somebody who waits, by its place among theirs.
#[derive(Clone, Copy)]
pub(crate) struct Demand {
    pub(crate) owner: u64,
    pub(crate) place: usize,
}

/// How many offers may meet a demand, and how many of these do whatever the tables are.
#[derive(Clone, Copy)]
pub(crate) struct Ways {
    pub(crate) may: u64,
    pub(crate) surely: u64,
}

/// Those who wait, each under a ticket.
#[derive(Clone, Copy)]
pub(crate) struct Crowd<'a> {
    pub(crate) index: &'a Index,
    pub(crate) profiles: &'a BTreeMap<u64, Profile>,
}

impl<'a> Crowd<'a> {
    /// What is demanded.
    pub(crate) fn pattern(&self, demand: Demand) -> Option<&'a Pattern> {
        self.index.party(demand.owner)?.demands.get(demand.place)
    }

    /// How many demands the script of a ticket has.
    pub(crate) fn demands(&self, ticket: u64) -> usize {
        match self.index.party(ticket) {
            Some(party) => party.demands.len(),
            None => 0,
        }
    }

    /// How many patterns the script of a ticket has.
    pub(crate) fn patterns(&self, ticket: u64) -> usize {
        match self.index.party(ticket) {
            Some(party) => party.offers.len().saturating_add(party.demands.len()),
            None => 0,
        }
    }

    /// Whether the script of a ticket has one entangled statement.
    pub(crate) fn is_single(&self, ticket: u64) -> bool {
        match self.profiles.get(&ticket) {
            Some(profile) => profile.statements == 1,
            None => false,
        }
    }

    /// The entangled statement that a demand is of.
    pub(crate) fn statement_of(&self, demand: Demand) -> Option<usize> {
        let profile = self.profiles.get(&demand.owner)?;
        let form = profile.demands.get(demand.place)?;
        Some(form.statement)
    }

    /// Whether each of these scripts has one entangled statement.
    pub(crate) fn are_single(&self, tickets: &[u64]) -> bool {
        tickets.iter().all(|ticket| self.is_single(*ticket))
    }

    /// Whether all of these wait.
    pub(crate) fn all_wait(&self, tickets: &[u64]) -> bool {
        tickets.iter().all(|ticket| self.index.contains(*ticket))
    }

    /// Whether the offer of a script may meet a demand of its own: if both are of one statement.
    fn is_of_one_statement(&self, demand: Demand, offer: usize) -> bool {
        let Some(profile) = self.profiles.get(&demand.owner) else {
            return false;
        };
        match (profile.demands.get(demand.place), profile.offers.get(offer)) {
            (Some(one), Some(other)) => one.statement == other.statement,
            _ => false,
        }
    }

    /// Whether an offer that may meet a demand does so whatever the tables are.
    fn is_sure(&self, demand: Demand, other: u64, offer: usize) -> bool {
        let (Some(own), Some(its)) = (self.profiles.get(&demand.owner), self.profiles.get(&other))
        else {
            return false;
        };
        if own.statements != 1 || its.statements != 1 {
            return false;
        }
        match (own.demands.get(demand.place), its.offers.get(offer)) {
            (Some(one), Some(another)) => one.is_plain && another.is_plain,
            _ => false,
        }
    }

    /// How many offers of the script of a ticket may meet a demand.
    pub(crate) fn ways_of(&self, demand: Demand, other: u64, work: &mut Work) -> Ways {
        let mut ways = Ways { may: 0, surely: 0 };
        let (Some(pattern), Some(party)) = (self.pattern(demand), self.index.party(other)) else {
            return ways;
        };
        work.compare(party.offers.len());
        for place in 0..party.offers.len() {
            if let Some(offer) = party.offers.get(place) {
                let is_other = other != demand.owner || self.is_of_one_statement(demand, place);
                if is_other && pattern.may_meet(offer) {
                    ways.may = ways.may.saturating_add(1);
                    if self.is_sure(demand, other, place) {
                        ways.surely = ways.surely.saturating_add(1);
                    }
                }
            }
        }
        ways
    }

    /// How many offers of these may meet a demand.
    pub(crate) fn ways(&self, demand: Demand, tickets: &[u64], work: &mut Work) -> Ways {
        let mut ways = Ways { may: 0, surely: 0 };
        for ticket in tickets {
            let more = self.ways_of(demand, *ticket, work);
            ways.may = ways.may.saturating_add(more.may);
            ways.surely = ways.surely.saturating_add(more.surely);
        }
        ways
    }

    /// Whether nobody who waits may meet one of the demands of the script of a ticket.
    pub(crate) fn is_lonely(&self, ticket: u64, work: &mut Work) -> bool {
        for place in 0..self.demands(ticket) {
            let demand = Demand {
                owner: ticket,
                place,
            };
            if self.is_unoffered(demand, work) {
                return true;
            }
        }
        false
    }

    /// Whether nobody who waits may meet a demand.
    fn is_unoffered(&self, demand: Demand, work: &mut Work) -> bool {
        let Some(pattern) = self.pattern(demand) else {
            return false;
        };
        let mut last = None;
        for _ in 0..MOST_OFFERERS {
            let mut looks = 1;
            work.compare(1);
            match self.index.next_offerer(pattern, last, &mut looks) {
                Next::Nobody => return true,
                Next::Stopped(passed) => last = passed,
                Next::Found(other) => {
                    if self.ways_of(demand, other, work).may > 0 {
                        return false;
                    }
                    last = Some(other);
                }
            }
        }
        false
    }

    /// Whether each demand of the script of a ticket may be met by one of these, or by itself.
    pub(crate) fn is_met_by(&self, ticket: u64, tickets: &[u64], work: &mut Work) -> bool {
        for place in 0..self.demands(ticket) {
            let demand = Demand {
                owner: ticket,
                place,
            };
            if self.ways(demand, tickets, work).may == 0
                && self.ways_of(demand, ticket, work).may == 0
            {
                return false;
            }
        }
        true
    }

    /// Whether the script of a ticket offers what one of these demands.
    pub(crate) fn serves(&self, ticket: u64, tickets: &[u64], work: &mut Work) -> bool {
        for owner in tickets {
            for place in 0..self.demands(*owner) {
                let demand = Demand {
                    owner: *owner,
                    place,
                };
                if *owner != ticket && self.ways_of(demand, ticket, work).may > 0 {
                    return true;
                }
            }
        }
        false
    }
}
