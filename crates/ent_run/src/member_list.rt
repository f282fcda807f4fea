//! Some members of a run, in an order.
ghost use Rattle.std.specs.Prelude.{◌≡◌, ◌∷◌, ◌<◌, ◌==◌, [], None, length, map, filter, slice_index_or, IfSome, IsNone};
ghost use Rattle.ent_protocol.specs.Member.{is_tx};
ghost use Rattle.ent_protocol.specs.State.{Member as Seen, first_of};
ghost use Rattle.ent_members.specs.Order.{IsAscending, tx_of};
ghost use Rattle.ent_run.specs.Places.{IsAt};
ghost use Rattle.ent_run.specs.UnderKeys.{AreThere, member_under, members_under};

use ent_group::Tx;
use ent_members::Progress;
use slab::Slab;
use std::marker::Model;

/// Some members of a run, in an order. What each has itself stands in a slab, and the list has its key. It owns
/// nothing.
#[derive(Drop)]
pub(crate) struct MemberList<'a> {
    live: &'a Slab<Progress>,
    keys: &'a [usize],
}

impl<'a> Model for MemberList<'a> {
    ghost use Rattle.std.specs.Prelude.{List};
    ghost use Rattle.ent_protocol.specs.State.{Member as Seen};
    ghost use Rattle.ent_run.specs.UnderKeys.{AreThere, members_under};

    ghost Value = { List Seen };

    ghost view = { λ l. members_under l.live.now l.keys.now };

    ghost invariant = { λ l. AreThere l.live.now l.keys.now };
}

/// The number of the member under a key; 0, where there is none.
fn number_under(live: &Slab<Progress>, key: usize) -> Tx
    ensures { result ≡ (member_under live.now key).tx }
{
    match live.get(key) {
        Some(member) => member.tx(),
        None => 0,
    }
}

impl<'a> MemberList<'a> {
    /// The members under these keys.
    pub(crate) fn new(live: &'a Slab<Progress>, keys: &'a [usize]) -> Self
        requires { AreThere live.now keys.now }
        ensures { result ≡ members_under live.now keys.now }
    {
        MemberList { live, keys }
    }

    pub(crate) fn len(&self) -> usize
        ensures { result ≡ length self.now }
    {
        self.keys.len()
    }

    pub(crate) fn is_empty(&self) -> bool
        ensures { result ≡ (length self.now == 0) }
    {
        self.keys.is_empty()
    }

    /// The member at a place, from 0.
    pub(crate) fn at(&self, place: usize) -> &'a Progress
        requires { place < length self.now }
        ensures { (d : Seen) → result.now ≡ slice_index_or self.now place d }
    {
        let keys = self.keys;
        &self.live[keys[place]]
    }

    /// The first member, and the others.
    pub(crate) fn split_first(&self) -> Option<(&'a Progress, MemberList<'a>)>
        ensures some { IfSome result (λ parts. self.now ≡ parts.0.now ∷ parts.1) }
        ensures none { IsNone result → self.now ≡ [] }
    {
        match self.keys.split_first() {
            Some((key, keys)) => {
                let live = self.live;
                Some((&live[*key], MemberList { live, keys }))
            }
            None => None,
        }
    }

    /// The place of the member of a number, in a list by number. It is mostly found by counting.
    pub(crate) fn place_by_number(&self, tx: Tx) -> Option<usize>
        requires { IsAscending (map tx_of self.now) }
        ensures some { IfSome result (IsAt self.now tx) }
        ensures none { IsNone result → first_of (filter (is_tx tx) self.now) ≡ None }
    {
        match self.place_counted(tx) {
            Some(at) => Some(at),
            None => self.place_searched(tx),
        }
    }

    /// The same, if each member up to it has the number after that of the one before.
    fn place_counted(&self, tx: Tx) -> Option<usize>
        requires { IsAscending (map tx_of self.now) }
        ensures { IfSome result (IsAt self.now tx) }
    {
        let (first, _) = self.split_first()?;
        let place = tx.wrapping_sub(first.tx()) as usize;
        if place < self.len() && self.at(place).tx() == tx {
            Some(place)
        } else {
            None
        }
    }

    /// The same by a search.
    fn place_searched(&self, tx: Tx) -> Option<usize>
        requires { IsAscending (map tx_of self.now) }
        ensures some { IfSome result (IsAt self.now tx) }
        ensures none { IsNone result → first_of (filter (is_tx tx) self.now) ≡ None }
    {
        let live = self.live;
        match self
            .keys
            .binary_search_by_key(&tx, |key| number_under(live, *key))
        {
            Ok(at) => Some(at),
            Err(_) => None,
        }
    }
}
