//! Meetings that are widened by others who wait.
use crate::crowd::{Crowd, Demand};
use crate::work::Work;
use ent_group::MOST_MEMBERS;
use ent_meetings::{Next, Pattern};
use std::alloc::{AllocError, Global};

/// So many who demand one offer are looked at.
const MOST_LOOKED_AT: usize = 1_024;

/// Those by whom a meeting is widened, in the order in which they may come: who demands what somebody there offers, each
/// of whose demands one offer alone may meet, and who offers nothing that somebody there demands. So nobody is held back
/// for them. It ends where the work is over.
pub(crate) fn others_of(
    alloc: Global,
    crowd: Crowd<'_>,
    meeting: &[u64],
    work: &mut Work,
) -> Result<Vec<u64>, AllocError> {
    let mut all = Vec::from_slice(alloc, meeting)?;
    'members: for place in 0..MOST_MEMBERS {
        let Some(ticket) = all.as_slice().get(place).copied() else {
            break 'members;
        };
        if let Some(party) = crowd.index.party(ticket) {
            for offer in party.offers.as_slice() {
                let_in_for(crowd, offer, &mut all, work)?;
            }
        }
    }
    Vec::from_slice(alloc, behind(all.as_slice(), meeting.len()))
}

/// The elements behind the first ones.
fn behind(all: &[u64], count: usize) -> &[u64] {
    if count <= all.len() {
        &all[count..]
    } else {
        &[]
    }
}

/// Those come who demand what an offer may meet, if they may.
fn let_in_for(
    crowd: Crowd<'_>,
    offer: &Pattern,
    all: &mut Vec<u64>,
    work: &mut Work,
) -> Result<(), AllocError> {
    let mut last = None;
    'others: for _ in 0..MOST_LOOKED_AT {
        if all.len() >= MOST_MEMBERS || work.is_over() {
            return Ok(());
        }
        work.compare(1);
        let mut looks = 1;
        match crowd.index.next_demander(offer, last, &mut looks) {
            Next::Nobody => return Ok(()),
            Next::Stopped(passed) => last = passed,
            Next::Found(ticket) => {
                last = Some(ticket);
                work.compare(crowd.patterns(ticket));
                if may_come(crowd, all.as_slice(), ticket, work) {
                    all.push(ticket)?;
                }
            }
        }
    }
    Ok(())
}

/// Whether somebody may come to those who are there.
fn may_come(crowd: Crowd<'_>, all: &[u64], ticket: u64, work: &mut Work) -> bool {
    if all.contains(&ticket) {
        return false;
    }
    for place in 0..crowd.demands(ticket) {
        let demand = Demand {
            owner: ticket,
            place,
        };
        let own = crowd.ways_of(demand, ticket, work).may;
        if crowd.ways(demand, all, work).may.saturating_add(own) != 1 {
            return false;
        }
    }
    !crowd.serves(ticket, all, work)
}

/// A meeting with some of those by whom it is widened: as many of them as have their demands met there. Its tickets,
/// ascending.
pub(crate) fn with_some(
    alloc: Global,
    crowd: Crowd<'_>,
    meeting: &[u64],
    some: &[u64],
    work: &mut Work,
) -> Result<Vec<u64>, AllocError> {
    let mut all = Vec::from_slice(alloc, meeting)?;
    for ticket in some {
        let is_there = crowd.index.contains(*ticket) && !all.as_slice().contains(ticket);
        if is_there && crowd.is_met_by(*ticket, all.as_slice(), work) {
            all.push(*ticket)?;
        }
    }
    all.sort()?;
    Ok(all)
}

/// The parts by which a meeting is widened in turn: all, each half, each quarter.
const PARTS: [(usize, usize); 7] = [(1, 0), (2, 0), (2, 1), (4, 0), (4, 1), (4, 2), (4, 3)];

/// So many parts there are.
pub(crate) const MOST_PARTS: usize = PARTS.len();

/// A part of those by whom a meeting is widened; nobody, where they are fewer than such parts.
pub(crate) fn part_of(others: &[u64], number: usize) -> &[u64] {
    let Some((parts, part)) = PARTS.get(number).copied() else {
        return &[];
    };
    if parts == 0 || parts > others.len() {
        return &[];
    }
    let size = others.len().div_ceil(parts);
    let from = size.saturating_mul(part).min(others.len());
    let to = from.saturating_add(size).min(others.len());
    &others[from..to]
}
