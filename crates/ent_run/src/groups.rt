//! The groups of a run's members.
ghost use Rattle.std.specs.Prelude.{◌≡◌, ℕ, ◌+◌, ◌≤◌, ◌∷◌, ◌++◌, ◌↔◌, Contains, IsSome, IsTrue, List, Some, length};
ghost use Rattle.std.specs.Prelude.{map, filter, nat_eq, not};
ghost use Rattle.std.specs.List.{AllByRecursion, IsDistinct, filter_map, list_any};
ghost use Rattle.std.specs.List.Sorted.{IsStrictlyIncreasing};
ghost use Rattle.std.specs.Option.{option_map};
ghost use Rattle.ent_group.specs.Groups.{group_of, numbers_of};
ghost use Rattle.ent_protocol.specs.PoolEvents.{joined_label};
ghost use Rattle.ent_protocol.specs.Run.{fresh};
ghost use Rattle.ent_protocol.specs.State.{Member as Seen};
ghost use Rattle.ent_run.specs.Grouped.{AreGrouped, AreNamed, is_labelled_among, unless_gone};
ghost use Rattle.ent_lock.specs.Use.{Uses};
ghost use Rattle.ent_run.specs.InRuns.{in_runs};
ghost use Rattle.ent_run.specs.Joined.{is_one_of, labels_in};
ghost use Rattle.ent_members.specs.Order.{IsAscending, tx_of};
ghost use Rattle.ent_members.specs.RunAttempts.{is_within};

use crate::member_list::MemberList;
use crate::search::is_among_by_number;
use ent_group::{Groups, MOST_MEMBERS, Members, Membership, Tx};
use ent_members::{Entrant, Progress};

/// Each of those who enter, in a group of its own.
pub(crate) fn each_alone(entrants: &[Entrant]) -> Groups
    requires bound { length entrants.now ≤ MOST_MEMBERS }
    requires distinct { IsDistinct nat_eq (map (λ e. e.tx) entrants.now) }
    ensures { AreGrouped result (map fresh entrants.now) }
{
    let mut groups = Groups::new();
    for entrant in entrants {
        groups.add(entrant.tx());
    }
    groups
}

/// Whether a group has a label: it is called after one of its members.
fn is_label(groups: &Groups, label: Tx) -> bool
    ensures { IsTrue result ↔ (group_of groups.now label ≡ Some label) }
{
    groups.group_of(label) == Some(label)
}

/// The numbers of members.
pub(crate) fn numbers_of(memberships: &[Membership]) -> Members
    requires { length memberships.now ≤ MOST_MEMBERS }
    ensures { result ≡ numbers_of memberships.now }
{
    let mut numbers = Members::new();
    for own in memberships {
        numbers.push(own.member);
    }
    numbers
}

fn is_labelled_among(own: &Membership, group: Tx, members: &MemberList) -> bool
    requires { IsAscending (map tx_of members.now) }
    ensures { result ≡ is_labelled_among group members.now own.now }
{
    own.group == group && is_among_by_number(members, own.member)
}

/// Whether some member of the group with a label is among those of a list by number.
pub(crate) fn any_labelled_among(
    memberships: &[Membership],
    group: Tx,
    members: &MemberList,
) -> bool
    requires { IsAscending (map tx_of members.now) }
    ensures { result ≡ list_any (is_labelled_among group members.now) memberships.now }
{
    for own in memberships {
        if is_labelled_among(own, group, members) {
            return true;
        }
    }
    false
}

/// The members of the group with a label, by number.
pub(crate) fn members_of(groups: &Groups, label: Tx) -> Members
    requires named { AreNamed groups.now }
    ensures by_number { IsStrictlyIncreasing result }
    ensures members { (x : ℕ) → Contains result x ↔ (group_of groups.now x ≡ Some label) }
{
    if is_label(groups, label) {
        groups.members(label)
    } else {
        Members::new()
    }
}

/// The group with a label leaves.
pub(crate) fn remove_labelled(groups: &mut Groups, label: Tx)
    requires named { AreNamed groups.old }
    ensures { (x : ℕ) → group_of groups.new x ≡ unless_gone label (group_of groups.old x) }
{
    if is_label(groups, label) {
        groups.remove_group(label);
    }
}

/// The group with a label leaves, or all, if none is named.
pub(crate) fn leave(groups: &mut Groups, group: Option<Tx>)
    requires named { AreNamed groups.old }
    ensures { (members : List Seen) → AreGrouped groups.old members
        → AreGrouped groups.new (filter (λ member. not (is_within group member)) members) }
{
    match group {
        Some(label) => remove_labelled(groups, label),
        None => *groups = Groups::new(),
    }
}

fn is_one_of(numbers: &[Tx], member: &Progress) -> bool
    ensures { result ≡ is_one_of numbers.now member.now }
{
    let tx = member.tx();
    numbers.iter().any(|n| *n == tx)
}

/// Puts the numbers of members that are among these to others.
fn gather_joined(members: &MemberList, numbers: &[Tx], joined: &mut Members)
    requires { length joined.old + length members.now ≤ MOST_MEMBERS }
    ensures list { joined.new ≡ joined.old ++ map tx_of (filter (is_one_of numbers.now) members.now) }
    ensures room { length joined.new ≤ length joined.old + length members.now }
{
    for place in 0..members.len() {
        let member = members.at(place);
        if is_one_of(numbers, member) {
            joined.push(member.tx());
        }
    }
}

/// The groups of others become one with that of the first.
fn merge_into(groups: &mut Groups, first: Tx, others: &[Tx])
    requires { AllByRecursion (λ tx. IsSome (group_of groups.old tx)) (first ∷ others.now) }
    ensures { (x : ℕ) → group_of groups.new x
        ≡ option_map (joined_label (filter_map (group_of groups.old) (first ∷ others.now))) (group_of groups.old x) }
{
    for other in others {
        groups.merge(first, *other);
    }
}

/// Joins the groups of these members.
fn merge_all(groups: &mut Groups, joined: &[Tx])
    requires { AllByRecursion (λ tx. IsSome (group_of groups.old tx)) joined.now }
    ensures { (x : ℕ) → group_of groups.new x
        ≡ option_map (joined_label (filter_map (group_of groups.old) joined.now)) (group_of groups.old x) }
{
    if let Some((first, others)) = joined.split_first() {
        merge_into(groups, *first, others);
    }
}

/// Joins the groups of a run's members that are answered.
pub(crate) fn merge_answered(
    groups: &mut Groups,
    prepared: &MemberList,
    active: &MemberList,
    answered: &[Tx],
)
    requires bound { length prepared.now + length active.now ≤ MOST_MEMBERS }
    requires members { (tx : ℕ) → Contains (map tx_of (prepared.now ++ active.now)) tx
        → IsSome (group_of groups.old tx) }
    ensures { (locks : Uses) (x : ℕ) → group_of groups.new x
        ≡ option_map (joined_label (labels_in answered.now (in_runs locks groups.old (prepared.now ++ active.now))))
        (group_of groups.old x) }
{
    let mut joined = Members::new();
    gather_joined(prepared, answered, &mut joined);
    gather_joined(active, answered, &mut joined);
    merge_all(groups, joined.as_slice());
}
