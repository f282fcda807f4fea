//! The groups of a run's transactions.
ghost use Rattle.std.specs.Prelude.{◌≡◌, ℕ, ◌+◌, ◌-◌, ◌<◌, ◌≤◌, ◌==◌, ◌⊎◌, ◌↔◌, [], length, map, filter, take};
ghost use Rattle.std.specs.Prelude.{insert, count_by, nat_lt, IfSome, IsTrue, IsSome, IsNone, Some, Contains};
ghost use Rattle.std.specs.Prelude.{if◌then◌else◌};
ghost use Rattle.std.specs.List.Sorted.{IsStrictlyIncreasing};
ghost use Rattle.ent_group.specs.Groups.{group_of, moved_label, relabelled, numbers_of, is_of, is_of_another};
ghost use Rattle.ent_group.specs.Groups.{SameGroup, InEither, Relabels, IsByNumber};

use crate::members::{MOST_MEMBERS, Members, Tx};
use std::marker::Model;

/// A member of a run with the label of its group. Two members are of one group where they have one label.
#[derive(Clone, Copy, Debug)]
pub struct Membership {
    pub member: Tx,
    pub group: Tx,
}

/// The members of a run, up to [`MOST_MEMBERS`], each in one group. It takes no memory, so no call of it can fail.
#[derive(Debug, Drop)]
pub struct Groups {
    memberships: [Membership; MOST_MEMBERS],
    len: usize,
}

impl Model for Groups {
    ghost use Rattle.std.specs.Prelude.{List, take, ◌≤◌};
    ghost use Rattle.ent_group.specs.declared.groups.Membership.{Membership as Entry};
    ghost use Rattle.ent_group.specs.declared.members.TheConstants.{MOST_MEMBERS};

    ghost Value = { List Entry };

    ghost use Rattle.ent_group.specs.Groups.{IsGrouping};

    ghost view = { λ g. take g.len g.memberships };

    ghost invariant = { λ g. (g.len ≤ MOST_MEMBERS) × IsGrouping (take g.len g.memberships) };
}

impl Groups {
    /// No members and no groups.
    pub fn new() -> Self
        ensures { result ≡ [] }
    {
        let nobody = Membership {
            member: 0,
            group: 0,
        };
        Groups {
            memberships: [nobody; MOST_MEMBERS],
            len: 0,
        }
    }

    pub fn len(&self) -> usize
        ensures len { result ≡ length self.now }
        ensures bound { length self.now ≤ MOST_MEMBERS }
    {
        self.as_slice().len()
    }

    pub fn is_empty(&self) -> bool
        ensures { result ≡ (length self.now == 0) }
    {
        self.as_slice().is_empty()
    }

    /// The members with their labels, by number.
    pub fn as_slice(&self) -> &[Membership]
        ensures list { result.now ≡ self.now }
        ensures by_number { IsByNumber self.now }
        ensures bound { length self.now ≤ MOST_MEMBERS }
    {
        &self.memberships[..self.len]
    }

    /// The label of a transaction's group, where it is a member.
    pub fn group_of(&self, tx: Tx) -> Option<Tx>
        ensures { result ≡ group_of self.now tx }
    {
        label_of(self.as_slice(), tx)
    }

    /// Whether a transaction is a member.
    pub fn contains(&self, tx: Tx) -> bool
        ensures { IsTrue result ↔ IsSome (group_of self.now tx) }
    {
        self.group_of(tx).is_some()
    }

    /// The members of a transaction's group, by number; nobody where it is no member.
    pub fn members(&self, tx: Tx) -> Members
        ensures by_number { IsStrictlyIncreasing result }
        ensures group { (x : ℕ) → Contains result x ↔ SameGroup self.now tx x }
    {
        match self.group_of(tx) {
            Some(group) => labelled(self.as_slice(), group),
            None => Members::new(),
        }
    }

    /// Makes a transaction a member, in a group of its own; [`contains`](Groups::contains) tests whether it is one
    /// already, and [`len`](Groups::len) whether there is room.
    pub fn add(&mut self, tx: Tx)
        requires room { length self.old < MOST_MEMBERS }
        requires not_in { IsNone (group_of self.old tx) }
        ensures labels { (x : ℕ) → group_of self.new x ≡ (if tx == x then Some tx else group_of self.old x) }
        ensures groups { (x y : ℕ) → SameGroup self.new x y ↔ (SameGroup self.old x y ⊎ ((x ≡ tx) × (y ≡ tx))) }
        ensures len { length self.new ≡ length self.old + 1 }
    {
        let at = count_below(self.as_slice(), tx);
        put_at(
            &mut self.memberships,
            self.len,
            at,
            Membership {
                member: tx,
                group: tx,
            },
        );
        self.len += 1;
    }

    /// Joins the groups of two members. The new group has the label of the left one.
    pub fn merge(&mut self, left: Tx, right: Tx)
        requires left_in { IsSome (group_of self.old left) }
        requires right_in { IsSome (group_of self.old right) }
        ensures labels { Relabels self.old self.new left right }
        ensures groups { (x y : ℕ) → SameGroup self.new x y
            ↔ (SameGroup self.old x y ⊎ (InEither self.old left right x × InEither self.old left right y)) }
        ensures members { numbers_of self.new ≡ numbers_of self.old }
    {
        if let (Some(kept), Some(gone)) = (self.group_of(left), self.group_of(right)) {
            relabel(&mut self.memberships, gone, kept);
        }
    }

    /// Takes out the members of a transaction's group; nobody where it is no member.
    pub fn remove_group(&mut self, tx: Tx)
        ensures gone { (x : ℕ) → SameGroup self.old tx x → group_of self.new x ≡ None }
        ensures others { (x : ℕ) → ¬ SameGroup self.old tx x → group_of self.new x ≡ group_of self.old x }
    {
        if let Some(group) = self.group_of(tx) {
            self.len = keep_others(&mut self.memberships, self.len, group);
        }
    }
}

/// The label of a transaction's group, where it is among members that stand by number. It is mostly found by counting.
fn label_of(memberships: &[Membership], tx: Tx) -> Option<Tx>
    requires { IsByNumber memberships.now }
    ensures { result ≡ group_of memberships.now tx }
{
    match label_counted(memberships, tx) {
        Some(label) => Some(label),
        None => label_searched(memberships, tx),
    }
}

/// The same, if each member up to it has the number after that of the one before.
fn label_counted(memberships: &[Membership], tx: Tx) -> Option<Tx>
    requires { IsByNumber memberships.now }
    ensures { IfSome result (λ label. group_of memberships.now tx ≡ Some label) }
{
    let first = memberships.first()?;
    let own = memberships.get(tx.wrapping_sub(first.member) as usize)?;
    if own.member == tx {
        Some(own.group)
    } else {
        None
    }
}

/// The same by a search.
fn label_searched(memberships: &[Membership], tx: Tx) -> Option<Tx>
    requires { IsByNumber memberships.now }
    ensures { result ≡ group_of memberships.now tx }
{
    let at = count_below(memberships, tx);
    match memberships.get(at) {
        Some(own) if own.member == tx => Some(own.group),
        _ => None,
    }
}

/// The members of the group with a label.
fn labelled(memberships: &[Membership], group: Tx) -> Members
    requires { length memberships.now ≤ MOST_MEMBERS }
    ensures { result ≡ numbers_of (filter (is_of group) memberships.now) }
{
    let mut members = Members::new();
    for membership in memberships {
        if membership.group == group {
            members.push(membership.member);
        }
    }
    members
}

/// How many members, which stand by number, have a smaller one.
fn count_below(memberships: &[Membership], tx: Tx) -> usize
    requires { IsByNumber memberships.now }
    ensures { result ≡ count_by (λ m. nat_lt m.member tx) memberships.now }
{
    memberships.partition_point(|m| m.member < tx)
}

/// Puts a membership in at an index of the first `len`, which become one more.
fn put_at(memberships: &mut [Membership], len: usize, at: usize, membership: Membership)
    requires room { len < length memberships.old }
    requires within { at ≤ len }
    ensures { take (len + 1) memberships.new ≡ insert (take len memberships.old) at membership }
{
    memberships[len] = membership;
    memberships[at..len + 1].rotate_right(1);
}

/// The label that a group has after a merge in which one label gives way to another.
fn moved_label(group: Tx, gone: Tx, kept: Tx) -> Tx
    ensures { result ≡ moved_label gone kept group }
{
    if group == gone { kept } else { group }
}

/// Gives the members of one group the label of another.
fn relabel(memberships: &mut [Membership], gone: Tx, kept: Tx)
    ensures { memberships.new ≡ map (relabelled gone kept) memberships.old }
{
    for membership in memberships.iter_mut() {
        membership.group = moved_label(membership.group, gone, kept);
    }
}

/// Moves the members of all groups but one, among the first `len`, to the front, in order, and answers how many they
/// are.
fn keep_others(memberships: &mut [Membership], len: usize, group: Tx) -> usize
    requires { len ≤ length memberships.old }
    ensures bound { result ≤ len }
    ensures kept { take result memberships.new ≡ filter (is_of_another group) (take len memberships.old) }
{
    let mut kept = 0;
    for i in 0..len {
        let membership = memberships[i];
        if membership.group != group {
            memberships[kept] = membership;
            kept += 1;
        }
    }
    kept
}
