//! Who offers what a statement demands.
ghost use Rattle.std.specs.Prelude.{◌<◌, MatchOption, length};
ghost use Rattle.ent_match.specs.Demand.{IsDemand};
ghost use Rattle.ent_match.specs.Fault.{IsOwner, HasNoOwner};

use crate::meets::can_meet;
use crate::posted::Posted;
use ent_group::{Members, Tx};

/// How the posts of a statement fare in a pool.
#[derive(Debug, Drop)]
pub enum Demand {
    /// No statement has a head for the post of this index, counted from 0; it is the first such post.
    Unmet(usize),
    /// Of each post, in their order, the first transaction whose statement has a head for it.
    Met(Members),
}

/// The first transaction whose statement has a head for a post.
fn offerer(members: &[Posted], asker: &Posted, index: usize) -> Option<Tx>
    requires { index < length asker.now.statement.posts }
    ensures { MatchOption result (HasNoOwner members.now asker.now index) (IsOwner members.now asker.now index) }
{
    for owner in members {
        if can_meet(asker, index, owner) {
            return Some(owner.tx());
        }
    }
    None
}

/// How the posts of a statement fare in a pool of these. It takes no memory.
pub fn demand_of(members: &[Posted], asker: &Posted) -> Demand
    ensures { IsDemand members.now asker.now result }
{
    let mut owners = Members::new();
    let posts = asker.statement().posts.len();
    for index in 0..posts {
        match offerer(members, asker, index) {
            Some(tx) => owners.push(tx),
            None => return Demand::Unmet(index),
        }
    }
    Demand::Met(owners)
}
