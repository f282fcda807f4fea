//! The pool.
ghost use Rattle.std.specs.Prelude.{◌≡◌, ◌≢◌, [], ◌<◌, AllPairs, IfOk, OnOk, OnErr, IfErr, filter};
ghost use Rattle.ent_semantics.specs.Pool.{IsSafe};
ghost use Rattle.ent_match.specs.Components.{AreComponents, AreFirstPlaces, AscendByFirst};
ghost use Rattle.ent_match.specs.Fault.{IsByNumber};
ghost use Rattle.ent_match.specs.Offers.{AreOffers};
ghost use Rattle.ent_match.specs.Posting.{HasNone, IsPostedTo, IsWhyWith, IsPlaceFor, is_of_other};

use crate::components::{components_by, first_places_of};
use crate::fault::PostFault;
use crate::offers::{Offer, add_offers, forget};
use crate::posted::Posted;
use ent_group::Tx;
use ent_value::Sequence;
use std::alloc::{AllocError, Global};
use std::marker::Model;

/// Posted statements, at most one a transaction. Contracts see them by number of their transactions. A pool is safe:
/// each post unifies with the heads of one statement at most. It keeps which statements have heads for which posts, so
/// that only `post` unifies.
#[derive(Drop)]
pub struct Pool {
    members: Vec<Posted>,
    offers: Vec<Offer>,
}

impl Model for Pool {
    ghost use Rattle.std.specs.Prelude.{List};
    ghost use Rattle.ent_semantics.specs.Pool.{Posted};
    ghost use Rattle.ent_match.specs.Offers.{IsSafeWith};

    ghost Value = { List Posted };

    ghost view = { λ p. p.members.items };

    ghost invariant = { λ p. IsSafeWith p.members.items p.offers.items };
}

impl Pool {
    /// The pool of no statement. It takes no memory.
    pub fn new(alloc: Global) -> Self
        ensures { result ≡ [] }
    {
        Pool {
            members: Vec::new(alloc),
            offers: Vec::new(alloc),
        }
    }

    /// The statements, by number of their transactions.
    pub fn members(&self) -> &[Posted]
        ensures members { result.now ≡ self.now }
        ensures by_number { IsByNumber self.now }
        ensures safe { IsSafe self.now }
    {
        self.members.as_slice()
    }

    /// Posts a statement. Refused where a post of the pool would unify with heads of two statements, or where memory
    /// runs out; then the pool is as before and the statement comes back. Its signatures are compared with those of
    /// each statement of the pool; its posts and heads are unified with those of the few whose signatures are alike.
    pub fn post(&mut self, member: Posted) -> Result<(), (Posted, PostFault)>
        requires { HasNone self.old member }
        ensures posted { OnOk result (IsPostedTo self.old self.new member) }
        ensures err { OnErr result (self.new ≡ self.old) }
        ensures returned { IfErr result (λ e. e.0 ≡ member) }
        ensures why { IfErr result (λ e. IsWhyWith self.old member e.1) }
    {
        post_to(&mut self.members, &mut self.offers, member)
    }

    /// The components, each once: of each the statements by number, and the components by their first ones. Statements
    /// are shared, so that none is copied, and no post is unified with a head.
    pub fn components(&self, alloc: Global) -> Result<Vec<Sequence<Posted>>, AllocError>
        ensures components { IfOk result (λ lists. AreComponents self.now lists.items) }
        ensures by_first { IfOk result (λ lists. AscendByFirst lists.items) }
    {
        let firsts = self.first_places(alloc)?;
        components_by(alloc, self.members(), firsts.as_slice())
    }

    /// The same pool once more. Statements are shared, so that none is copied.
    pub fn shared(&self, alloc: Global) -> Result<Pool, AllocError>
        ensures { IfOk result (λ pool. pool ≡ self.now) }
    {
        let members = shared_members(alloc, self.members.as_slice())?;
        let offers = Vec::from_slice(alloc, self.offers.as_slice())?;
        Ok(Pool { members, offers })
    }

    /// Takes the statement of a transaction out, where there is one. It takes no memory.
    pub fn withdraw(&mut self, tx: Tx)
        ensures { self.new ≡ filter (is_of_other tx) self.old }
    {
        withdraw_from(&mut self.members, tx);
        forget(&mut self.offers, tx);
    }

    /// Of each statement, by number, the place of the first one of its component; none of a statement that is in none.
    /// No statement is shared, and no post is unified with a head.
    pub fn first_places(&self, alloc: Global) -> Result<Vec<Option<usize>>, AllocError>
        ensures { IfOk result (λ firsts. AreFirstPlaces self.now firsts.items) }
    {
        let members = self.members();
        first_places_of(alloc, members, self.offers.as_slice())
    }
}

/// Where a statement goes, by number.
fn place_for(members: &[Posted], member: &Posted) -> usize
    ensures { IsPlaceFor members.now member.now result }
{
    for (i, other) in members.iter().enumerate() {
        if member.tx() < other.tx() {
            return i;
        }
    }
    members.len()
}

/// Posts a statement to statements by number that are safe, whose offers are kept; refused, they are as before.
fn post_to(
    members: &mut Vec<Posted>,
    offers: &mut Vec<Offer>,
    member: Posted,
) -> Result<(), (Posted, PostFault)>
    requires by_number { IsByNumber members.old.items }
    requires safe { IsSafe members.old.items }
    requires exact { AreOffers members.old.items offers.old.items }
    requires none { HasNone members.old.items member }
    ensures posted { OnOk result (IsPostedTo members.old.items members.new.items member) }
    ensures err { OnErr result (members.new.items ≡ members.old.items) }
    ensures exact { AreOffers members.new.items offers.new.items }
    ensures returned { IfErr result (λ e. e.0 ≡ member) }
    ensures why { IfErr result (λ e. IsWhyWith members.old.items member e.1) }
{
    let at = place_for(members.as_slice(), &member);
    if let Err(failed) = members.insert(at, member) {
        return Err((failed.value, PostFault::Memory));
    }
    match add_offers(offers, members.as_slice(), &members[at]) {
        Ok(()) => Ok(()),
        Err(fault) => {
            let member = members.remove(at);
            Err((member, fault))
        }
    }
}

fn is_of_other(member: &Posted, tx: Tx) -> bool
    ensures { result ≡ is_of_other tx member.now }
{
    member.tx() != tx
}

/// Takes the statement of a transaction out.
fn withdraw_from(members: &mut Vec<Posted>, tx: Tx)
    ensures { members.new.items ≡ filter (is_of_other tx) members.old.items }
{
    members.retain(|member| is_of_other(member, tx));
}

/// The same statements once more.
fn shared_members(alloc: Global, members: &[Posted]) -> Result<Vec<Posted>, AllocError>
    ensures { IfOk result (λ same. same.items ≡ members.now) }
{
    let mut same = Vec::with_capacity(alloc, members.len())?;
    for member in members {
        let shared = member.shared()?;
        same.push(shared)?;
    }
    Ok(same)
}
