//! Where a transaction stands.
ghost use Rattle.std.specs.Prelude.{◌≡◌, Some};
ghost use Rattle.std.specs.Option.{option_map};
ghost use Rattle.ent_core.specs.Begin.{IsFreeMember};
ghost use Rattle.ent_core.specs.Kept.{IsKeptState};
ghost use Rattle.ent_core.specs.Standing.{standing_seen};
ghost use Rattle.ent_members.specs.Turn.{turn_seen};
ghost use Rattle.ent_protocol.specs.Lookup as lookups;
ghost use Rattle.ent_protocol.specs.Member.{active_member, next_of};
ghost use Rattle.ent_protocol.specs.State.{Member as Seen};

use crate::begin::FreeMember;
use crate::store::Store;
use ent_form::FormFault;
use ent_group::Tx;
use ent_members::{RunMember, Turn, turn_of};
use ent_protocol_laws::transactions_stand_once;
use ent_semantics::Fate;

/// Where a transaction stands.
#[derive(Clone, Copy, Debug, PartialEq, Eq)]
pub enum Standing {
    /// In no run, after so many.
    Dormant(u64),
    /// A member of the run that may begin.
    Ready(Turn),
    /// Its statement's job is lent.
    Out,
    /// Its statement is in the pool.
    Posted,
    Prepared,
    Finished(Fate),
}

/// Where a member stands that isn't prepared.
fn active_standing(store: &Store, member: &RunMember) -> Standing
    ensures { standing_seen result ≡ lookups.active_standing store.now member.now }
{
    if member.is_posted() {
        return Standing::Posted;
    }
    if store.lent.is_lent(member.tx()) {
        return Standing::Out;
    }
    Standing::Ready(turn_of(store.submitted.as_slice(), member))
}

/// What a free member begins next.
pub(crate) fn next_turn(store: &Store, found: FreeMember) -> Turn
    requires { IsFreeMember store.now found }
    ensures { (member : Seen) → active_member store.now found.tx ≡ Some member
        → turn_seen result ≡ lookups.turn_of (next_of store.now member) }
{
    turn_of(store.submitted.as_slice(), &found.member(store))
}

/// Where a transaction stands: as a member, else as it is dormant, else by its fate. It stands in one of these places,
/// so the short list of members comes first.
pub(crate) fn standing_of(store: &Store, tx: Tx) -> Option<Standing>
    requires kept { IsKeptState store.now }
    ensures { option_map standing_seen result ≡ lookups.standing store.now tx }
{
    // Law: a transaction stands in one place.
    transactions_stand_once::<FormFault>();
    if store.run.is_prepared(tx) {
        return Some(Standing::Prepared);
    }
    if let Some(member) = store.run.active_member(tx) {
        return Some(active_standing(store, &member));
    }
    if let Some(own) = store.transaction_table.dormant_of(tx) {
        return Some(Standing::Dormant(own.runs()));
    }
    match store.transaction_table.fate_of(tx) {
        Some(fated) => Some(Standing::Finished(fated.fate)),
        None => None,
    }
}
