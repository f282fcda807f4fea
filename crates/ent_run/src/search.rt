//! Members in a list, by their numbers.
ghost use Rattle.std.specs.Prelude.{◌≡◌, ◌≤◌, length, map, filter, IfSome, IsNone, None};
ghost use Rattle.std.specs.List.{list_any};
ghost use Rattle.std.specs.Option.{option_copied};
ghost use Rattle.ent_protocol.specs.Member.{is_tx};
ghost use Rattle.ent_protocol.specs.State.{first_of};
ghost use Rattle.ent_members.specs.Order.{IsAscending, tx_of};
ghost use Rattle.ent_run.specs.Places.{IsAt};

use crate::member_list::MemberList;
use ent_group::{MOST_MEMBERS, Members, Tx};
use ent_members::Progress;

/// The first member of a number.
pub(crate) fn member_in<'a>(members: &MemberList<'a>, tx: Tx) -> Option<&'a Progress>
    ensures { option_copied result ≡ first_of (filter (is_tx tx) members.now) }
{
    match place_of(members, tx) {
        Some(at) => Some(members.at(at)),
        None => None,
    }
}

/// The member of a number, in a list by number.
pub(crate) fn member_by_number<'a>(members: &MemberList<'a>, tx: Tx) -> Option<&'a Progress>
    requires { IsAscending (map tx_of members.now) }
    ensures { option_copied result ≡ first_of (filter (is_tx tx) members.now) }
{
    match members.place_by_number(tx) {
        Some(at) => Some(members.at(at)),
        None => None,
    }
}

/// The place of the first member of a number.
pub(crate) fn place_of(members: &MemberList, tx: Tx) -> Option<usize>
    ensures some { IfSome result (IsAt members.now tx) }
    ensures none { IsNone result → first_of (filter (is_tx tx) members.now) ≡ None }
{
    for place in 0..members.len() {
        if members.at(place).tx() == tx {
            return Some(place);
        }
    }
    None
}

/// Whether a member has a number.
pub(crate) fn is_among(members: &MemberList, tx: Tx) -> bool
    ensures { result ≡ list_any (is_tx tx) members.now }
{
    place_of(members, tx).is_some()
}

/// The same, in a list by number.
pub(crate) fn is_among_by_number(members: &MemberList, tx: Tx) -> bool
    requires { IsAscending (map tx_of members.now) }
    ensures { result ≡ list_any (is_tx tx) members.now }
{
    members.place_by_number(tx).is_some()
}

/// Whether a member has a number, where the numbers that are asked for mostly come in the order of the list: the next
/// of it is tried first.
pub(crate) fn is_among_from(members: &MemberList, tx: Tx, next: &mut usize) -> bool
    ensures { result ≡ list_any (is_tx tx) members.now }
{
    if *next < members.len() && members.at(*next).tx() == tx {
        *next += 1;
        return true;
    }
    is_among(members, tx)
}

/// The numbers of members, in their order.
pub fn member_numbers(members: &[Progress]) -> Members
    requires { length members.now ≤ MOST_MEMBERS }
    ensures { result ≡ map tx_of members.now }
{
    let mut numbers = Members::new();
    for member in members {
        numbers.push(member.tx());
    }
    numbers
}
