//! Where statements stand.
ghost use Rattle.std.specs.Prelude.{MatchOption};
ghost use Rattle.ent_match.specs.Fault.{IsByNumber};
ghost use Rattle.ent_match.specs.Place.{HasNoneOf, IsPlaceOf};

use crate::posted::Posted;
use ent_group::Tx;

/// The place of the statement of a transaction.
pub fn place_of(members: &[Posted], tx: Tx) -> Option<usize>
    ensures { MatchOption result (HasNoneOf members.now tx) (IsPlaceOf members.now tx) }
{
    for (place, member) in members.iter().enumerate() {
        if member.tx() == tx {
            return Some(place);
        }
    }
    None
}

/// The place of the statement of a transaction, among statements by number.
pub(crate) fn place_by_number(members: &[Posted], tx: Tx) -> Option<usize>
    requires { IsByNumber members.now }
    ensures { MatchOption result (HasNoneOf members.now tx) (IsPlaceOf members.now tx) }
{
    match members.binary_search_by_key(&tx, |member| member.tx()) {
        Ok(place) => Some(place),
        Err(_) => None,
    }
}
