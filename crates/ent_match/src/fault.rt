//! Why a pool isn't safe.
ghost use Rattle.std.specs.Prelude.{◌≡◌, ◌+◌, ◌<◌, ℕ, Contains, MatchOption, length};
ghost use Rattle.ent_semantics.specs.Pool.{IsSafe, IsFirstUnsafe};
ghost use Rattle.ent_match.specs.Fault.{IsByNumber, MeetsOne, AreTwoLeast, IsFaultOf, IsSafeBut};

use crate::meets::can_meet;
use crate::posted::Posted;
use ent_group::Tx;
use std::marker::Model;

/// A post that unifies with heads of two statements.
#[derive(Debug, Drop)]
pub struct Unsafe {
    asker: Tx,
    index: usize,
    first: Tx,
    second: Tx,
}

impl Model for Unsafe {
    ghost use Rattle.ent_semantics.specs.Pool.{Unsafe as Fault};

    ghost Value = { Fault };

    ghost use Rattle.std.specs.Prelude.{◌<◌};
    ghost use Rattle.ent_tree.specs.declared.limits.TheConstants.{MOST_PARTS};

    ghost view = { λ u. record { asker = u.asker; index = u.index; first = u.first; second = u.second } };

    ghost invariant = { λ u. u.index < MOST_PARTS };
}

/// Why a statement isn't posted.
#[derive(Debug, Drop)]
pub enum PostFault {
    Memory,
    Unsafe(Unsafe),
}

impl Unsafe {
    /// The transaction of the post.
    pub fn asker(&self) -> Tx
        ensures { result ≡ self.now.asker }
    {
        self.asker
    }

    /// The number of the post in its statement, counted from 1.
    pub fn post(&self) -> usize
        ensures { result ≡ self.now.index + 1 }
    {
        self.index + 1
    }

    /// The least transaction that has a head for the post.
    pub fn first(&self) -> Tx
        ensures { result ≡ self.now.first }
    {
        self.first
    }

    /// The least transaction but the first that has a head for the post.
    pub fn second(&self) -> Tx
        ensures { result ≡ self.now.second }
    {
        self.second
    }
}

/// The two least of the statements that have a head for a post; none where there is one at most.
fn two_least(members: &[Posted], asker: &Posted, index: usize) -> Option<(Tx, Tx)>
    requires by_number { IsByNumber members.now }
    requires post { index < length asker.now.statement.posts }
    ensures { MatchOption result (MeetsOne members.now asker.now index)
        (λ two. AreTwoLeast members.now asker.now index two.0 two.1) }
{
    let mut first = None;
    for owner in members {
        if can_meet(asker, index, owner) {
            if let Some(first) = first {
                return Some((first, owner.tx()));
            }
            first = Some(owner.tx());
        }
    }
    None
}

/// The first post of a statement that unifies with heads of two, where the pool without the new statement is safe.
fn fault_in(members: &[Posted], asker: &Posted, new: &Posted) -> Option<Unsafe>
    requires by_number { IsByNumber members.now }
    requires asks { Contains members.now asker.now }
    requires is_new { Contains members.now new.now }
    requires safe { IsSafeBut members.now new.now }
    ensures { MatchOption result ((index : ℕ) → MeetsOne members.now asker.now index)
        (IsFaultOf members.now asker.now) }
{
    for index in 0..asker.statement().posts.len() {
        if asker.tx() != new.tx() && !can_meet(asker, index, new) {
            continue;
        }
        if let Some((first, second)) = two_least(members, asker, index) {
            return Some(Unsafe {
                asker: asker.tx(),
                index,
                first,
                second,
            });
        }
    }
    None
}

/// The first post of a pool that unifies with heads of two statements, where the pool without the new one is safe.
pub(crate) fn fault_of(members: &[Posted], new: &Posted) -> Option<Unsafe>
    requires by_number { IsByNumber members.now }
    requires is_new { Contains members.now new.now }
    requires safe { IsSafeBut members.now new.now }
    ensures { MatchOption result (IsSafe members.now) (IsFirstUnsafe members.now) }
{
    for asker in members {
        if let Some(fault) = fault_in(members, asker, new) {
            return Some(fault);
        }
    }
    None
}
