//! Which statements of a pool have heads for which posts: found out when a statement is posted, and kept.
ghost use Rattle.std.specs.Prelude.{◌≡◌, ◌↔◌, false, Contains, IfErr, IsTrue, MatchOption, OnErr, OnOk};
ghost use Rattle.std.specs.Prelude.{filter};
ghost use Rattle.ent_semantics.specs.Pool.{IsFirstUnsafe, IsSafe};
ghost use Rattle.ent_match.specs.Fault.{IsByNumber, IsSafeBut};
ghost use Rattle.ent_match.specs.Offers.{AreOffers, AreOffersBut, GrowBy, HasRival, IsBetween};
ghost use Rattle.ent_match.specs.Offers.{IsContested, IsMetBy, IsOfPair, is_of, is_of_others};
ghost use Rattle.ent_match.specs.Posting.{IsWhyIn};
ghost use Rattle.ent_match.specs.declared.offers.Offer.{Offer};

use crate::fault::{PostFault, Unsafe, fault_of};
use crate::meets::has_head_for;
use crate::posted::Posted;
use ent_group::Tx;
use std::alloc::AllocError;

/// That a statement has a head for a post: the transaction of the post, its index, and the transaction of the head.
#[derive(Clone, Copy)]
pub struct Offer {
    pub asker: Tx,
    pub index: usize,
    pub owner: Tx,
}

/// Whether an offer is by a transaction, or to it.
fn is_of(offer: &Offer, tx: Tx) -> bool
    ensures { result ≡ is_of tx offer.now }
{
    offer.asker == tx || offer.owner == tx
}

/// Takes the offers by a transaction, and those to it, out.
pub(crate) fn forget(offers: &mut Vec<Offer>, tx: Tx)
    ensures { offers.new.items ≡ filter (is_of_others tx) offers.old.items }
{
    offers.retain(|offer| !is_of(offer, tx));
}

/// Puts down for which posts of one statement another has a head. It tries each post.
fn push_each_met(offers: &mut Vec<Offer>, asker: &Posted, owner: &Posted) -> Result<(), AllocError>
    ensures grows { GrowBy offers.old.items offers.new.items (IsMetBy asker.now owner.now) }
    ensures ok { OnOk result ((offer : Offer) → IsMetBy asker.now owner.now offer
        → Contains offers.new.items offer) }
{
    for index in 0..asker.statement().posts.len() {
        if has_head_for(owner, asker, index) {
            offers.push(Offer {
                asker: asker.tx(),
                index,
                owner: owner.tx(),
            })?;
        }
    }
    Ok(())
}

/// Puts down for which posts of one statement another has a head. Their signatures tell of most that there are none.
fn push_met(offers: &mut Vec<Offer>, asker: &Posted, owner: &Posted) -> Result<(), AllocError>
    ensures grows { GrowBy offers.old.items offers.new.items (IsMetBy asker.now owner.now) }
    ensures ok { OnOk result ((offer : Offer) → IsMetBy asker.now owner.now offer
        → Contains offers.new.items offer) }
{
    if !asker.may_meet(owner) {
        return Ok(());
    }
    push_each_met(offers, asker, owner)
}

/// Puts down the offers between two statements, once where the two are one.
fn push_pair(offers: &mut Vec<Offer>, one: &Posted, other: &Posted) -> Result<(), AllocError>
    requires { one.now.tx ≡ other.now.tx → one.now ≡ other.now }
    ensures grows { GrowBy offers.old.items offers.new.items (IsOfPair one.now other.now) }
    ensures ok { OnOk result ((offer : Offer) → IsOfPair one.now other.now offer
        → Contains offers.new.items offer) }
{
    push_met(offers, one, other)?;
    if one.tx() != other.tx() {
        push_met(offers, other, one)?;
    }
    Ok(())
}

/// Puts down the offers between one statement of a pool and each.
fn push_between(offers: &mut Vec<Offer>, members: &[Posted], new: &Posted) -> Result<(), AllocError>
    requires by_number { IsByNumber members.now }
    requires is_new { Contains members.now new.now }
    ensures grows { GrowBy offers.old.items offers.new.items (IsBetween members.now new.now) }
    ensures ok { OnOk result ((offer : Offer) → IsBetween members.now new.now offer
        → Contains offers.new.items offer) }
{
    for member in members {
        push_pair(offers, member, new)?;
    }
    Ok(())
}

/// Whether there is an offer by another transaction for the post of an offer.
fn has_rival(offers: &[Offer], offer: &Offer) -> bool
    ensures { IsTrue result ↔ HasRival offers.now offer.now }
{
    for other in offers {
        if other.asker == offer.asker && other.index == offer.index && other.owner != offer.owner {
            return true;
        }
    }
    false
}

/// Whether two transactions offer a head for one post, and the post or one of the heads is of a transaction.
fn is_contested(offers: &[Offer], tx: Tx) -> bool
    ensures { IsTrue result ↔ IsContested offers.now tx }
{
    for offer in offers {
        if is_of(offer, tx) && has_rival(offers, offer) {
            return true;
        }
    }
    false
}

/// Why a pool isn't safe, if it isn't. It is safe where its new statement has no part in a contested post.
fn fault_if(members: &[Posted], new: &Posted, is_contested: bool) -> Option<Unsafe>
    requires by_number { IsByNumber members.now }
    requires is_new { Contains members.now new.now }
    requires safe { IsSafeBut members.now new.now }
    requires uncontested { (is_contested ≡ false) → IsSafe members.now }
    ensures { MatchOption result (IsSafe members.now) (IsFirstUnsafe members.now) }
{
    if is_contested {
        fault_of(members, new)
    } else {
        None
    }
}

/// Puts down the offers between a new statement of a pool and each; only some of them where memory runs out. Nothing is
/// taken back where the pool isn't safe.
fn push_new(offers: &mut Vec<Offer>, members: &[Posted], new: &Posted) -> Result<(), PostFault>
    requires by_number { IsByNumber members.now }
    requires is_new { Contains members.now new.now }
    requires safe { IsSafeBut members.now new.now }
    requires kept { AreOffersBut members.now new.now.tx offers.old.items }
    ensures exact { OnOk result (AreOffers members.now offers.new.items) }
    ensures safe { OnOk result (IsSafe members.now) }
    ensures grows { GrowBy offers.old.items offers.new.items (IsBetween members.now new.now) }
    ensures why { IfErr result (IsWhyIn members.now) }
{
    let Ok(()) = push_between(offers, members, new) else {
        return Err(PostFault::Memory);
    };
    let contested = is_contested(offers.as_slice(), new.tx());
    match fault_if(members, new, contested) {
        None => Ok(()),
        Some(fault) => Err(PostFault::Unsafe(fault)),
    }
}

/// Puts down the offers that come with a new statement. Where that fails, those of the other statements are left.
pub(crate) fn add_offers(
    offers: &mut Vec<Offer>,
    members: &[Posted],
    new: &Posted,
) -> Result<(), PostFault>
    requires by_number { IsByNumber members.now }
    requires is_new { Contains members.now new.now }
    requires safe { IsSafeBut members.now new.now }
    requires kept { AreOffersBut members.now new.now.tx offers.old.items }
    ensures exact { OnOk result (AreOffers members.now offers.new.items) }
    ensures safe { OnOk result (IsSafe members.now) }
    ensures err { OnErr result (AreOffersBut members.now new.now.tx offers.new.items) }
    ensures why { IfErr result (IsWhyIn members.now) }
{
    match push_new(offers, members, new) {
        Ok(()) => Ok(()),
        Err(fault) => {
            forget(offers, new.tx());
            Err(fault)
        }
    }
}
