//! Somebody is posted, or taken out, with all offers and all demands.
ghost use Rattle.std.specs.Prelude.{OnErr, OnOk};
ghost use Rattle.ent_meetings.specs.Keys.{have_key};
ghost use Rattle.ent_meetings.specs.Postings.{HasNone, IsSame, Posts, Unposts};

use crate::postings::{Postings, post, unpost};
use crate::{Party, Pattern};
use std::alloc::AllocError;

/// Posts a ticket that isn't posted yet under the keys of patterns. Where memory runs out, it isn't posted.
fn post_new(postings: &mut Postings, ticket: u64, patterns: &[Pattern]) -> Result<(), AllocError>
    requires { HasNone postings.old ticket }
    ensures ok { OnOk result (Posts ticket (have_key patterns.now) postings.old postings.new) }
    ensures err { OnErr result (IsSame postings.old postings.new) }
{
    match post(postings, ticket, patterns) {
        Ok(()) => Ok(()),
        Err(AllocError) => {
            unpost(postings, ticket, patterns);
            Err(AllocError)
        }
    }
}

/// Takes out all entries of a party that waits under a ticket.
pub(crate) fn unpost_party(
    offers: &mut Postings,
    demands: &mut Postings,
    ticket: u64,
    party: &Party,
)
    ensures offers { Unposts ticket (have_key party.now.offers) offers.old offers.new }
    ensures demands { Unposts ticket (have_key party.now.demands) demands.old demands.new }
{
    unpost(offers, ticket, party.offers.as_slice());
    unpost(demands, ticket, party.demands.as_slice());
}

/// Posts a party that comes to wait under a ticket. Where memory runs out, it isn't posted.
pub(crate) fn post_party(
    offers: &mut Postings,
    demands: &mut Postings,
    ticket: u64,
    party: &Party,
) -> Result<(), AllocError>
    requires offers { HasNone offers.old ticket }
    requires demands { HasNone demands.old ticket }
    ensures by_offers { OnOk result (Posts ticket (have_key party.now.offers) offers.old offers.new) }
    ensures by_demands { OnOk result (Posts ticket (have_key party.now.demands) demands.old demands.new) }
    ensures same_offers { OnErr result (IsSame offers.old offers.new) }
    ensures same_demands { OnErr result (IsSame demands.old demands.new) }
{
    post_new(offers, ticket, party.offers.as_slice())?;
    match post_new(demands, ticket, party.demands.as_slice()) {
        Ok(()) => Ok(()),
        Err(AllocError) => {
            unpost(offers, ticket, party.offers.as_slice());
            Err(AllocError)
        }
    }
}
