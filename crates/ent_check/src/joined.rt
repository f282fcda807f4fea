//! Offers by the joint answers that their statements are members of.
ghost use Rattle.std.specs.Prelude.{◌≡◌, ◌++◌, ◌∷◌, ℕ, List, [], IfOk, OnOk};
ghost use Rattle.std.specs.BTreeMap.{get};
ghost use Rattle.std.specs.Ordering.{nat_cmp};
ghost use Rattle.ent_check.specs.Offers.{AreJoined, joint_in, offers_there};
ghost use Rattle.ent_check.specs.declared.offer.StatementOffer.{StatementOffer as Offered};

use crate::offer::StatementOffer;
use crate::seat::Seats;
use crate::seating::seat_at;
use ent_value::Sequence;
use std::alloc::{AllocError, Global};
use std::collections::BTreeMap;

/// Under the number of each joint answer the offers of its members, in their order; under 0 those of no member.
pub(crate) type Joined = BTreeMap<u64, Sequence<StatementOffer>>;

/// The number of the joint answer that the statement of an offer is a member of; 0 where it is a member of none.
fn joint_of(seats: &Seats, offer: &StatementOffer) -> u64
    ensures { result ≡ joint_in seats.now offer.now }
{
    match seat_at(seats, offer.tx, offer.place) {
        Some((joint, _number)) => joint,
        None => 0,
    }
}

/// An offer of the joint answer of this number stands behind those that there are.
fn join(
    alloc: Global,
    joined: &mut Joined,
    joint: u64,
    offer: StatementOffer,
) -> Result<(), AllocError>
    ensures { (own : Offered → ℕ) (offers : List Offered) → own offer ≡ joint → AreJoined own offers joined.old
        → OnOk result (AreJoined own (offers ++ offer ∷ []) joined.new) }
{
    let mut offers = match joined.remove(&joint) {
        Some(offers) => offers,
        None => Sequence::new(alloc),
    };
    offers.push(offer)?;
    joined.insert(joint, offers)?;
    Ok(())
}

/// Offers by the joint answers whose members have these seats.
pub(crate) fn joined_by(
    alloc: Global,
    seats: &Seats,
    offers: Vec<StatementOffer>,
) -> Result<Joined, AllocError>
    ensures { IfOk result (λ joined. AreJoined (joint_in seats.now) offers.items joined) }
{
    let mut joined = BTreeMap::new(alloc);
    for offer in offers {
        let joint = joint_of(seats, &offer);
        join(alloc, &mut joined, joint, offer)?;
    }
    Ok(joined)
}

/// The offers of the joint answer of a number.
pub(crate) fn offers_of(joined: &Joined, number: u64) -> &[StatementOffer]
    ensures { result.now ≡ offers_there (get nat_cmp joined.now number) }
{
    match joined.get(&number) {
        Some(offers) => offers.as_slice(),
        None => &[],
    }
}
