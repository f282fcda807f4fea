//! The rule of postconditions.
ghost use Rattle.std.specs.Prelude.{◌≡◌, ◌++◌, ◌&&◌, ◌||◌, ◌==◌, ℕ, not, List, [], None, IfOk, is_none, map};
ghost use Rattle.std.specs.BTreeMap.{BTreeMap};
ghost use Rattle.std.specs.List.{list_all, list_any};
ghost use Rattle.ent_check.specs.Heads.{has};
ghost use Rattle.ent_check.specs.Offers.{AreJoined, joint_in, offer_of};
ghost use Rattle.ent_check.specs.Seats.{AreSeatsOf};
ghost use Rattle.ent_check.specs.declared.offer.StatementOffer.{StatementOffer as Offered};
ghost use Rattle.ent_history.specs.Told.{joint_answer_of};
ghost use Rattle.ent_history.specs.Account.{Account};
ghost use Rattle.ent_history.specs.Joint.{left_out_findings, members_findings};
ghost use Rattle.ent_history.specs.Placed.{placed};
ghost use Rattle.ent_history.specs.Post.{is_offered, post_findings};
ghost use Rattle.ent_history.specs.Verdict.{first_of};
ghost use Rattle.ent_semantics.specs.Book.{all_members};
ghost use Rattle.ent_semantics.specs.Serial.{ReadView};

use crate::Evidence;
use crate::heads::{Heads, heads_of, is_head};
use crate::joined::{Joined, joined_by, offers_of};
use crate::offer::StatementOffer;
use crate::seat::Seats;
use ent_history::{Finding, Rule, Thing, ToldJoint};
use ent_semantics::Fact;
use std::alloc::{AllocError, Global};

/// Whether each of these facts that are demanded is one of these heads.
fn are_heads<'a>(heads: &Heads<'a>, posts: &'a [Fact]) -> bool
    ensures { result ≡ list_all (has heads.now) posts.now }
{
    for post in posts {
        if !is_head(heads, post) {
            return false;
        }
    }
    true
}

/// Whether each postcondition of these offers is one of these heads.
fn all_met<'a>(heads: &Heads<'a>, offers: &'a [StatementOffer]) -> bool
    ensures { result ≡ list_all (λ offer. list_all (has heads.now) offer.posts) offers.now }
{
    for offer in offers {
        if !are_heads(heads, offer.posts.as_slice()) {
            return false;
        }
    }
    true
}

/// Whether each postcondition of these offers is a head of one of them.
fn are_content(alloc: Global, offers: &[StatementOffer]) -> Result<bool, AllocError>
    ensures { IfOk result (λ content. content ≡ list_all (λ offer. list_all
        (λ post. list_any (λ other. is_offered other.heads post) offers.now) offer.posts) offers.now) }
{
    let heads = heads_of(alloc, offers)?;
    Ok(all_met(&heads, offers))
}

/// Whether each postcondition of an offer of the joint answer of this number is met there.
fn are_met(alloc: Global, joined: &Joined, number: u64) -> Result<bool, AllocError>
    ensures { IfOk result (λ met. (own : Offered → ℕ) (offers : List Offered) → AreJoined own offers joined.now
        → met ≡ list_all (λ offer. not (own offer == number) || list_all
        (λ post. list_any (λ other. (own other == number) && is_offered other.heads post) offers)
        offer.posts) offers) }
{
    are_content(alloc, offers_of(joined, number))
}

/// The first of these facts that are demanded that is none of these heads.
fn missing_head<'a>(heads: &Heads<'a>, posts: &'a [Fact]) -> Option<&'a Fact>
    ensures { is_none result ≡ list_all (has heads.now) posts.now }
{
    for post in posts {
        if !is_head(heads, post) {
            return Some(post);
        }
    }
    None
}

/// The first postcondition of these offers that is no head of one of them, with its statement.
fn unmet(alloc: Global, offers: &[StatementOffer]) -> Result<Option<Evidence>, AllocError> {
    let heads = heads_of(alloc, offers)?;
    for offer in offers {
        if let Some(post) = missing_head(&heads, offer.posts.as_slice()) {
            let relation = post.relation.copy(alloc)?;
            let values = post.values.copy(alloc)?;
            return Ok(Some(Evidence::Unmet {
                tx: offer.tx,
                place: offer.place,
                demand: Fact { relation, values },
            }));
        }
    }
    Ok(None)
}

/// The first joint answer that has a postcondition of a member that is no head of a member of it. That is noted.
fn first_unmet(
    alloc: Global,
    joint_answers: &[ToldJoint],
    joined: &Joined,
    evidence: &mut Option<Evidence>,
) -> Result<Option<Finding>, AllocError>
    ensures { IfOk result (λ finding. (all : List Account) (run : List ReadView) (seats : BTreeMap (ℕ × ℕ) (ℕ × ℕ))
        → let answers = map joint_answer_of joint_answers.now in
        AreSeatsOf (placed answers) seats
        → first_of (members_findings all 1 [] answers ++ left_out_findings (all_members answers) all) ≡ None
        → AreJoined (joint_in seats) (map offer_of run) joined.now
        → finding ≡ first_of (post_findings run 1 answers)) }
{
    for index in 0..joint_answers.len() {
        let number = index as u64 + 1;
        let met = are_met(alloc, joined, number)?;
        if !met {
            *evidence = unmet(alloc, offers_of(joined, number)).unwrap_or(None);
            return Ok(Some(Finding {
                rule: Rule::Post,
                thing: Thing::Joint(number),
            }));
        }
    }
    Ok(None)
}

/// The first joint answer that has a postcondition of a member that is no head of a member of it, where `seats` are
/// those of `joint_answers`, `offers` those of a run in its order, and nothing breaks the rule of joint answers. It
/// puts each offer to its joint answer, puts the heads there in order, and looks each postcondition up among them. The
/// first that isn't there is noted.
pub fn post_finding(
    alloc: Global,
    seats: &Seats,
    joint_answers: &[ToldJoint],
    offers: Vec<StatementOffer>,
    evidence: &mut Option<Evidence>,
) -> Result<Option<Finding>, AllocError>
    requires { AreSeatsOf (placed (map joint_answer_of joint_answers.now)) seats.now }
    ensures { (all : List Account) (run : List ReadView) → let answers = map joint_answer_of joint_answers.now in
        first_of (members_findings all 1 [] answers ++ left_out_findings (all_members answers) all) ≡ None
        → offers.items ≡ map offer_of run
        → IfOk result (λ finding. finding ≡ first_of (post_findings run 1 answers)) }
{
    let joined = joined_by(alloc, seats, offers)?;
    first_unmet(alloc, joint_answers, &joined, evidence)
}
