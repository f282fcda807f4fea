//! The slab of a run's members.
ghost use Rattle.std.specs.Prelude.{◌≡◌, ℕ, ◌+◌, ◌<◌, ◌≤◌, ◌++◌, List, [], filter, length, map, nat_eq};
ghost use Rattle.std.specs.Prelude.{OnErr, OnOk, insert, slice_index_or, slice_set};
ghost use Rattle.std.specs.List.{IsDistinct};
ghost use Rattle.std.specs.Vec.{vec_capacity, vec_len};
ghost use Rattle.ent_value.specs.declared.value.Value.{Value as Bound};
ghost use Rattle.ent_semantics.specs.Database.{Name as Variable};
ghost use Rattle.ent_semantics.specs.declared.answer.Answer.{Answer as Answered};
ghost use Rattle.ent_protocol.specs.Finish.{stepped};
ghost use Rattle.ent_protocol.specs.State.{Member as Seen};
ghost use Rattle.ent_members.specs.Changes.{posted, stepping};
ghost use Rattle.ent_members.specs.Order.{tx_of};
ghost use Rattle.ent_run.specs.InRuns.{is_labelled, is_otherwise_labelled};
ghost use Rattle.ent_run.specs.MemberSlab.{AreDistinct};
ghost use Rattle.ent_run.specs.Moves.{Prepares, is_not_of};
ghost use Rattle.ent_run.specs.Places.{IsAt};

use crate::member_list::MemberList;
use crate::moves;
use ent_group::{Groups, Members, Tx};
use ent_members::Progress;
use ent_semantics::Answer;
use ent_value::{Name, Value};
use slab::Slab;
use std::alloc::{AllocError, Global};
use std::marker::Model;

/// What the members of a run have themselves. It stands in a slab, under keys that don't move: one list has the keys of
/// those that are prepared, in the order in which they prepared, and one those of the others.
#[derive(Drop)]
pub(crate) struct MemberSlab {
    live: Slab<Progress>,
    prepared: Vec<usize>,
    active: Vec<usize>,
}

impl Model for MemberSlab {
    ghost use Rattle.ent_run.specs.MemberSlab.{AreKeys};
    ghost use Rattle.ent_run.specs.Run.{Run as Seen};
    ghost use Rattle.ent_run.specs.UnderKeys.{members_under};

    ghost Value = { Seen };

    ghost view = { λ s. record {
      prepared = members_under s.live s.prepared.items;
      active = members_under s.live s.active.items;
    } };

    ghost invariant = { λ s. AreKeys s.live s.prepared.items s.active.items };
}

impl MemberSlab {
    /// Nobody. It takes no memory.
    pub(crate) fn new(alloc: Global) -> Self
        ensures prepared { result.prepared ≡ [] }
        ensures active { result.active ≡ [] }
    {
        MemberSlab {
            live: Slab::new(alloc),
            prepared: Vec::new(alloc),
            active: Vec::new(alloc),
        }
    }

    /// Those that are prepared, in the order in which they prepared.
    pub(crate) fn prepared(&self) -> MemberList<'_>
        ensures { result ≡ self.now.prepared }
    {
        MemberList::new(&self.live, self.prepared.as_slice())
    }

    /// The others.
    pub(crate) fn active(&self) -> MemberList<'_>
        ensures { result ≡ self.now.active }
    {
        MemberList::new(&self.live, self.active.as_slice())
    }

    /// A member comes in, at a place of those that aren't prepared. Where memory runs out nothing changes.
    pub(crate) fn insert(&mut self, place: usize, member: Progress) -> Result<(), AllocError>
        requires { place ≤ length self.old.active }
        ensures ok { OnOk result (self.new ≡ record self.old { active = insert self.old.active place member }) }
        ensures err { OnErr result (self.new ≡ self.old) }
    {
        self.live.reserve(1)?;
        let key = self.live.vacant_key();
        self.active.insert(place, key)?;
        self.live.insert_reserved(member);
        Ok(())
    }

    /// The statement of the member at a place of those that aren't prepared is posted.
    pub(crate) fn post(&mut self, place: usize)
        requires within { place < length self.old.active }
        requires numbers { AreDistinct self.old }
        ensures { (d : Seen) → self.new ≡ record self.old {
          active = slice_set self.old.active place (posted (slice_index_or self.old.active place d));
        } }
    {
        let key = self.active.as_slice()[place];
        self.live[key].post();
    }

    /// The member at a place of those that aren't prepared takes the answer of its statement, and is at the next one.
    /// Where memory runs out nothing changes.
    pub(crate) fn step(&mut self, place: usize, answer: Answer) -> Result<(), AllocError>
        requires within { place < length self.old.active }
        requires numbers { AreDistinct self.old }
        ensures ok { (d : Seen) → OnOk result (self.new ≡ record self.old {
          active = slice_set self.old.active place (stepped answer (slice_index_or self.old.active place d));
        }) }
        ensures err { OnErr result (self.new ≡ self.old) }
    {
        let key = self.active.as_slice()[place];
        self.live[key].step(answer)
    }

    /// The same, where the answer binds host variables.
    pub(crate) fn step_bound(
        &mut self,
        place: usize,
        answer: Answer,
        bound: Vec<(Name, Value)>,
    ) -> Result<(), AllocError>
        requires within { place < length self.old.active }
        requires numbers { AreDistinct self.old }
        ensures ok { (d : Seen) → OnOk result (self.new ≡ record self.old {
          active = slice_set self.old.active place
              (stepping answer bound.items (slice_index_or self.old.active place d));
        }) }
        ensures err { OnErr result (self.new ≡ self.old) }
    {
        let key = self.active.as_slice()[place];
        self.live[key].step_bound(answer, bound)
    }

    /// The member at a place of those that aren't prepared is as before it took its last answer: it had so many
    /// bindings, and its statement was posted or not.
    pub(crate) fn step_back(&mut self, place: usize, bindings: usize, was_posted: bool)
        requires within { place < length self.old.active }
        requires numbers { AreDistinct self.old }
        ensures back { (answer : Answered) (bound : List (Variable × Bound)) (before d : Seen)
            → slice_index_or self.old.active place d ≡ stepping answer bound before
            → length before.bound ≡ bindings → before.posted ≡ was_posted
            → self.new ≡ record self.old { active = slice_set self.old.active place before } }
        ensures numbers { map tx_of self.new.active ≡ map tx_of self.old.active }
        ensures prepared { self.new.prepared ≡ self.old.prepared }
    {
        let key = self.active.as_slice()[place];
        self.live[key].step_back(bindings, was_posted);
    }

    /// The member at a place of those that aren't prepared is prepared, the last so far. Where memory runs out nothing
    /// changes.
    pub(crate) fn prepare(&mut self, place: usize) -> Result<(), AllocError>
        requires within { place < length self.old.active }
        requires distinct { IsDistinct nat_eq (map tx_of self.old.active) }
        ensures ok { (tx : ℕ) → IsAt self.old.active tx place → OnOk result (Prepares tx self.old self.new) }
        ensures err { OnErr result (self.new ≡ self.old) }
    {
        self.prepared.reserve(1)?;
        let key = self.active.remove(place);
        self.prepared.push_reserved(key);
        Ok(())
    }

    /// The members of these numbers leave. It takes no memory.
    pub(crate) fn remove(&mut self, numbers: &Members)
        ensures prepared { self.new.prepared ≡ filter (is_not_of numbers.now) self.old.prepared }
        ensures active { self.new.active ≡ filter (is_not_of numbers.now) self.old.active }
    {
        moves::remove(&mut self.live, numbers);
        moves::keep_there(&mut self.prepared, &self.live);
        moves::keep_there(&mut self.active, &self.live);
    }

    /// The prepared members of the group with a label leave, in order, and come to others; there is room for them.
    pub(crate) fn take_group(&mut self, groups: &Groups, group: Tx, taken: &mut Vec<Progress>)
        requires numbers { AreDistinct self.old }
        requires room { vec_len taken.old + length self.old.prepared ≤ vec_capacity taken.old }
        ensures prepared { self.new.prepared ≡ filter (is_otherwise_labelled groups.now group) self.old.prepared }
        ensures active { self.new.active ≡ self.old.active }
        ensures taken { taken.new.items
            ≡ taken.old.items ++ filter (is_labelled groups.now group) self.old.prepared }
    {
        moves::take_group(
            &mut self.live,
            self.prepared.as_slice(),
            groups,
            group,
            taken,
        );
        moves::keep_there(&mut self.prepared, &self.live);
    }
}
