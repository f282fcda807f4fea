//! The members of a run that starts.
ghost use Rattle.std.specs.Prelude.{◌≡◌, [], OnOk, IfOk, map};
ghost use Rattle.ent_protocol.specs.Run.{fresh};
ghost use Rattle.ent_protocol.specs.State.{by_number, inserted};
ghost use Rattle.ent_members.specs.Order.{place_in, tx_of};

use crate::member_list::MemberList;
use crate::member_slab::MemberSlab;
use ent_group::Tx;
use ent_members::{Entrant, Progress};
use std::alloc::{AllocError, Global};

/// The place of the first member of a greater number, or else the length.
fn place_for(members: &MemberList, tx: Tx) -> usize
    ensures { result ≡ place_in tx_of members.now tx }
{
    for place in 0..members.len() {
        if tx < members.at(place).tx() {
            return place;
        }
    }
    members.len()
}

/// Puts a member in by number.
fn insert(members: &mut MemberSlab, member: Progress) -> Result<(), AllocError>
    ensures active { OnOk result (members.new.active ≡ inserted tx_of member members.old.active) }
    ensures prepared { members.new.prepared ≡ members.old.prepared }
{
    let at = place_for(&members.active(), member.tx());
    members.insert(at, member)
}

/// A member for each entrant, by number; none is prepared.
pub(crate) fn fresh_members(alloc: Global, entrants: &[Entrant]) -> Result<MemberSlab, AllocError>
    ensures prepared { IfOk result (λ members. members.prepared ≡ []) }
    ensures active { IfOk result (λ members. members.active ≡ by_number tx_of (map fresh entrants.now)) }
{
    let Some((first, rest)) = entrants.split_first() else {
        return Ok(MemberSlab::new(alloc));
    };
    let mut members = fresh_members(alloc, rest)?;
    insert(&mut members, Progress::fresh(alloc, *first))?;
    Ok(members)
}
