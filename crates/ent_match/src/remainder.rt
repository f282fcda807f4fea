//! Which statements of a pool remain: all that they ask for is offered within the remainder.
ghost use Rattle.std.specs.Prelude.{◌≡◌, ◌<◌, ◌≤◌, length, Contains, IfOk, MatchOption};
ghost use Rattle.ent_match.specs.Fault.{HasNoOwner, IsByNumber};
ghost use Rattle.ent_match.specs.Offers.{AreOffers, IsForAt, NoneIsFor};
ghost use Rattle.ent_match.specs.Remainder.{IsOwnerAt, AsksTo, IsStart};

use crate::link::Link;
use crate::offers::Offer;
use crate::place::place_by_number;
use crate::posted::Posted;
use ent_group::Tx;
use std::alloc::{AllocError, Global};

/// The links of a pool from the owner of a head to the owner of a post that it unifies with, and marks at the
/// statements that don't remain.
#[derive(Drop)]
pub struct Asked {
    pub links: Vec<Link>,
    pub removed: Vec<bool>,
}

/// The place of an offer for a post, from one place of the offers on and before another.
fn offer_between(
    offers: &[Offer],
    asker: Tx,
    index: usize,
    from: usize,
    end: usize,
) -> Option<usize>
    requires { end ≤ length offers.now }
    ensures { MatchOption result (NoneIsFor offers.now asker index from end) (IsForAt offers.now asker index) }
{
    for place in from..end {
        let offer = offers[place];
        if offer.asker == asker && offer.index == index {
            return Some(place);
        }
    }
    None
}

/// The place of an offer for a post. The search begins at a place of the offers and goes round.
fn offer_from(offers: &[Offer], asker: Tx, index: usize, from: usize) -> Option<usize>
    ensures { MatchOption result (NoneIsFor offers.now asker index 0 (length offers.now))
        (IsForAt offers.now asker index) }
{
    match offer_between(offers, asker, index, from, offers.len()) {
        Some(place) => Some(place),
        None => offer_between(offers, asker, index, 0, from.min(offers.len())),
    }
}

/// The place of a statement that has a head for a post. The search of the offers begins at `next`, which is put behind
/// the offer that is found: those of one statement, and of its partners, mostly stand beside each other.
fn owner_place(
    members: &[Posted],
    offers: &[Offer],
    asker: &Posted,
    index: usize,
    next: &mut usize,
) -> Option<usize>
    requires by_number { IsByNumber members.now }
    requires exact { AreOffers members.now offers.now }
    requires asks { Contains members.now asker.now }
    ensures { MatchOption result (HasNoOwner members.now asker.now index) (IsOwnerAt members.now asker.now index) }
{
    let Some(place) = offer_from(offers, asker.tx(), index, *next) else {
        return None;
    };
    *next = place + 1;
    place_by_number(members, offers[place].owner)
}

/// Puts down the links to the statement at a place; answers whether it has a post that unifies with no head. The search
/// of the offers begins at `next`, and is left where the next one may begin.
fn push_links(
    links: &mut Vec<Link>,
    members: &[Posted],
    offers: &[Offer],
    place: usize,
    next: &mut usize,
) -> Result<bool, AllocError>
    requires by_number { IsByNumber members.now }
    requires exact { AreOffers members.now offers.now }
    requires within { place < length members.now }
    ensures { IfOk result (AsksTo members.now place links.old.items links.new.items) }
{
    let asker = &members[place];
    for index in 0..asker.statement().posts.len() {
        let Some(owner) = owner_place(members, offers, asker, index, next) else {
            return Ok(true);
        };
        links.push(Link {
            from: owner,
            to: place,
        })?;
    }
    Ok(false)
}

/// The links of a pool, and marks at the statements with a post that unifies with no head.
pub(crate) fn links_of(
    alloc: Global,
    members: &[Posted],
    offers: &[Offer],
) -> Result<Asked, AllocError>
    requires by_number { IsByNumber members.now }
    requires exact { AreOffers members.now offers.now }
    ensures { IfOk result (λ asked. IsStart members.now asked.links.items asked.removed.items) }
{
    let mut links = Vec::with_capacity(alloc, members.len())?;
    let mut removed = Vec::with_capacity(alloc, members.len())?;
    let mut next = 0;
    for place in 0..members.len() {
        let is_removed = push_links(&mut links, members, offers, place, &mut next)?;
        removed.push(is_removed)?;
    }
    Ok(Asked { links, removed })
}
