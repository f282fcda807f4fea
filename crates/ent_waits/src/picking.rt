//! Which component is picked.
ghost use Rattle.std.specs.Prelude.{◌≡◌, IfOk, MatchOption};
ghost use Rattle.ent_lock.specs.Use.{IsLeast};
ghost use Rattle.ent_protocol.specs.Member.{pool as pool_of};
ghost use Rattle.ent_protocol.specs.Quiet.{IsUntried, NoneIs};
ghost use Rattle.ent_protocol.specs.State.{State};
ghost use Rattle.ent_waits.specs.Component.{IsPick};

use crate::open::first_open;
use ent_group::Tx;
use ent_job::Job;
use ent_match::{Pool, Posted, component_at};
use ent_semantics::components_are_classes;
use ent_value::Sequence;
use std::alloc::{AllocError, Global};

/// Of the components that weren't tried and have no job lent, the one with the least first member; None if there is
/// none. Only its statements are shared.
pub fn pick(
    alloc: Global,
    pool: &Pool,
    tried: &[Sequence<Posted>],
    lent: &[Job],
) -> Result<Option<Sequence<Posted>>, AllocError>
    ensures { IfOk result (λ picked. IsPick pool.now tried.now lent.now picked) }
{
    components_are_classes();
    let members = pool.members();
    let firsts = pool.first_places(alloc)?;
    match first_open(members, firsts.as_slice(), tried, lent) {
        Some(place) => {
            let picked = component_at(alloc, members, firsts.as_slice(), place)?;
            Ok(Some(picked))
        }
        None => Ok(None),
    }
}

/// The least first transaction of a component that wasn't tried, where there is one.
pub fn first_untried(
    alloc: Global,
    pool: &Pool,
    tried: &[Sequence<Posted>],
) -> Result<Option<Tx>, AllocError>
    ensures { IfOk result (λ first. (s : State)
        → pool_of s ≡ pool.now
        → s.tried ≡ tried.now
        → MatchOption first (NoneIs (IsUntried s)) (IsLeast (IsUntried s))) }
{
    components_are_classes();
    let members = pool.members();
    let firsts = pool.first_places(alloc)?;
    match first_open(members, firsts.as_slice(), tried, &[]) {
        Some(place) => Ok(Some(members[place].tx())),
        None => Ok(None),
    }
}
