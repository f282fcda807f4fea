//! Where the members of joint answers stand.
ghost use Rattle.std.specs.Prelude.{◌≡◌, ◌++◌, ◌∷◌, [], List, OnOk};
ghost use Rattle.ent_check.specs.Seats.{AreSeatsOf};
ghost use Rattle.ent_history.specs.Placed.{Placed};

use ent_semantics::Member;
use std::alloc::AllocError;
use std::collections::BTreeMap;

/// Under the numbers of a transaction and of its statement those of a joint answer and of a member in it.
pub type Seats = BTreeMap<(u64, u64), (u64, u64)>;

/// A member of these numbers takes its seat, unless its statement has one already.
pub(crate) fn take_seat(
    seats: &mut Seats,
    joint: u64,
    number: u64,
    member: &Member,
) -> Result<(), AllocError>
    ensures { (members : List Placed) → AreSeatsOf members seats.old
        → OnOk result (AreSeatsOf (members ++ record { joint = joint; number = number; member = member.now } ∷ [])
        seats.new) }
{
    let place = (member.tx, member.place);
    if seats.contains_key(&place) {
        return Ok(());
    }
    seats.insert(place, (joint, number))?;
    Ok(())
}
