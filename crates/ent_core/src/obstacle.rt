//! Why a member can't move now.
ghost use Rattle.std.specs.Prelude.{◌≡◌, IfOk, MatchOption};
ghost use Rattle.ent_core.specs.Begin.{IsFreeMember};
ghost use Rattle.ent_core.specs.Kept.{IsKeptState};
ghost use Rattle.ent_core.specs.Obstacle.{obstacle_seen};
ghost use Rattle.ent_protocol.specs.Event as replies;
ghost use Rattle.ent_protocol.specs.Member.{next_of};
ghost use Rattle.ent_protocol.specs.Waits.{next_uses};
ghost use Rattle.ent_match.specs.Place.{HasNoneOf};
ghost use Rattle.ent_core.specs.Obstacle.{AreBetween, IsBetween, IsHeldBack, IsObstacle, IsOf, StandsSo};

use crate::begin::{BeginRefusal, FreeMember, free_member, next_of, query_of};
use crate::store::Store;
use ent_form::FormFault;
use ent_group::Tx;
use ent_match::{Demand, Posted, Unsafe, demand_of};
use ent_members::{Conflict, Next, RunMember, next_form, statement_uses};
use ent_protocol_laws::members_stand_by_number;
use ent_waits::post_fault;
use std::alloc::AllocError;

/// Why a member can't move now.
#[derive(Debug, Drop)]
pub enum Obstacle {
    /// It is no member of the run.
    Absent,
    /// Its statement is posted, and waits for its answer. The posts of the statement fare so.
    Posted(Demand),
    /// The result of its job is awaited.
    Out,
    /// It asked to commit, and waits for its group.
    Prepared,
    /// The least member that holds a use in conflict with one that its next statement asks for.
    Blocked(Tx),
    /// Its statement isn't posted, since this post would have heads of two statements.
    HeldBack(Unsafe),
}

/// The statement of a transaction, among those that are posted.
pub(crate) fn posted_of(posted: &[Posted], tx: Tx) -> Option<&Posted>
    ensures { MatchOption result (HasNoneOf posted.now tx) (λ query. IsOf posted.now tx query.now) }
{
    for query in posted {
        if query.tx() == tx {
            return Some(query);
        }
    }
    None
}

/// Where a member stands that is posted or prepared, or has a job out.
fn place_of(store: &Store, tx: Tx) -> Obstacle
    ensures reply { obstacle_seen result ≡ replies.NotNow }
    ensures stands { StandsSo store.now tx result }
{
    if let Some(query) = posted_of(store.pool.members(), tx) {
        return Obstacle::Posted(demand_of(store.pool.members(), query));
    }
    if store.run.is_prepared(tx) {
        return Obstacle::Prepared;
    }
    Obstacle::Out
}

/// The unsafe post for which a member's statement is held back that nobody blocks.
fn held_back(store: &Store, found: FreeMember) -> Result<Option<Unsafe>, AllocError>
    requires kept { IsKeptState store.now }
    requires free { IsFreeMember store.now found }
    ensures { IfOk result (IsHeldBack store.now found.tx) }
{
    members_stand_by_number::<FormFault>();
    let member = found.member(store);
    match next_of(store, &member)? {
        Next::Ordinary(statement) => {
            drop(statement);
            Ok(None)
        }
        Next::Asks(statement) => {
            let query = query_of(&member, statement);
            post_fault(store.alloc, &store.pool, &query)
        }
        Next::Commits => Ok(None),
        Next::RollsBack => Ok(None),
    }
}

/// Why the begin of a member would be refused; none where it would get on.
pub(crate) fn obstacle_of(store: &Store, tx: Tx) -> Result<Option<Obstacle>, AllocError>
    requires kept { IsKeptState store.now }
    ensures { IfOk result (IsObstacle store.now tx) }
{
    match free_member(store, tx) {
        Err(BeginRefusal::Absent) => Ok(Some(Obstacle::Absent)),
        Err(BeginRefusal::NotNow) => Ok(Some(place_of(store, tx))),
        Err(BeginRefusal::Blocked(holder)) => Ok(Some(Obstacle::Blocked(holder))),
        Ok(found) => match held_back(store, found)? {
            Some(fault) => Ok(Some(Obstacle::HeldBack(fault))),
            None => Ok(None),
        },
    }
}

/// Between what a member's next statement asks for and what another holds.
fn conflict_of(store: &Store, asker: &RunMember, holder: &RunMember) -> Option<Conflict>
    ensures { AreBetween (next_uses (next_of store.now asker.now)) holder.now.uses result }
{
    match next_form(store.submitted.as_slice(), asker) {
        Some(form) => holder.first_conflict(statement_uses(form).as_slice()),
        None => None,
    }
}

/// The table on which a member blocks another one's next statement, and the modes.
pub(crate) fn conflict_between(store: &Store, asker: Tx, holder: Tx) -> Option<Conflict>
    ensures { IsBetween store.now asker holder result }
{
    match store.run.active_member(asker) {
        Some(member) => match store.run.member(holder) {
            Some(other) => conflict_of(store, &member, &other),
            None => None,
        },
        None => None,
    }
}
