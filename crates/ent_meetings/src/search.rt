//! The search for the meetings of a root.
ghost use Rattle.std.specs.Prelude.{◌≡◌, ◌<◌, ◌≤◌, [], None, Some, false, true, length, map, option_map, IfOk, OnErr, OnOk};
ghost use Rattle.ent_meetings.specs.declared.pattern.Pattern.{Pattern};
ghost use Rattle.ent_meetings.specs.Group.{first_unmet, is_crowded};
ghost use Rattle.ent_meetings.specs.SearchSteps.{IsPast, IsRest, IsStep, IsUnmoved, Moves};
ghost use Rattle.ent_meetings.specs.Search.{IsFound, IsStand, found_of, root_of};
ghost use Rattle.ent_meetings.specs.Waiting.{Waiting, Waits, named};

use crate::Pattern;
use crate::found::{Bound, Found};
use crate::group::{first_unmet, is_crowded};
use crate::index::Index;
use crate::next::Next;
use crate::tickets::{by_arrival, is_among};
use ent_group::MOST_MEMBERS;
use std::alloc::{AllocError, Global};

/// So many meetings of one root are handed out at most.
pub const MOST_CHOICES: usize = 8;

/// At so many candidates one call looks at most, where its caller has no reason for another number: enough for meetings
/// of people who name each other, and soon over where demands fit everybody.
pub const MOST_LOOKS: usize = 4_096;

/// A search for the meetings of one root among those who wait. It keeps the meetings that it handed out, and where it
/// stands, so that it goes on there. It holds for an index that doesn't change meanwhile: at a changed one make
/// another.
///
/// It begins with the root. For the first demand that nobody of the chosen may meet, it chooses who has waited longest
/// of those who may, and goes back where that leads nowhere. A first pass is for clear sets, a second for all.
#[derive(Drop)]
pub struct Search {
    root: u64,
    /// The meetings that were handed out.
    found: Vec<Vec<u64>>,
    /// Whether this is the pass for clear sets alone.
    is_clear: bool,
    /// Whether the pass has left out sets of more than [`MOST_MEMBERS`].
    is_cut: bool,
    /// Who is chosen, in order. Nobody is once the pass is over.
    chosen: Vec<u64>,
    /// Of those who may meet the first demand that the chosen don't meet, all up to this one were tried.
    last: Option<u64>,
}

impl Search {
    /// A search that begins. The root has to wait.
    pub fn new(alloc: Global, index: &Index, root: u64) -> Result<Self, AllocError>
        requires { Waits index.now root }
        ensures stand { IfOk result (IsStand index.now) }
        ensures root { IfOk result (λ search. root_of search ≡ root) }
        ensures found { IfOk result (λ search. found_of search ≡ []) }
    {
        let chosen = vec![in alloc; root]?;
        Ok(Search {
            root,
            found: Vec::new(alloc),
            is_clear: true,
            is_cut: false,
            chosen,
            last: None,
        })
    }

    /// Whose meetings are sought.
    pub fn root(&self) -> u64
        ensures { result ≡ root_of self.now }
    {
        self.root
    }

    /// The meetings that were handed out, in order.
    pub fn found(&self) -> &[Vec<u64>]
        ensures { map (λ meeting. meeting.items) result.now ≡ found_of self.now }
    {
        self.found.as_slice()
    }

    /// Goes back from the chosen, of which there are some.
    fn back(&mut self)
        requires { 0 < length self.old.chosen.items }
        ensures { (waiting : Waiting) → IsStand waiting self.old → IsPast waiting self.old
            → Moves waiting self.old self.new }
    {
        if let Some(ticket) = self.chosen.pop() {
            self.last = Some(ticket);
        }
    }

    /// The pass for clear sets is over, and one for all begins.
    fn begin_again(&mut self) -> Result<(), AllocError>
        requires over { length self.old.chosen.items ≡ 0 }
        requires clear { self.old.is_clear ≡ true }
        ensures ok { OnOk result ((waiting : Waiting) → IsStand waiting self.old → Moves waiting self.old self.new) }
        ensures err { OnErr result (IsUnmoved self.old self.new) }
    {
        self.chosen.push(self.root)?;
        self.is_clear = false;
        self.is_cut = false;
        self.last = None;
        Ok(())
    }

    /// Who gives next what the chosen demand comes to them, or they go back where nobody does.
    fn choose(
        &mut self,
        index: &Index,
        demand: &Pattern,
        looks: &mut usize,
    ) -> Result<(), AllocError>
        requires stand { IsStand index.now self.old }
        requires some { 0 < length self.old.chosen.items }
        requires room { length self.old.chosen.items < MOST_MEMBERS }
        requires unmet { first_unmet (named index.now self.old.chosen.items) ≡ Some demand.now }
        requires looks { 0 < looks.old }
        ensures looks { looks.new < looks.old }
        ensures ok { OnOk result (Moves index.now self.old self.new) }
        ensures err { OnErr result (IsUnmoved self.old self.new) }
    {
        match index.next_offerer(demand, self.last, looks) {
            Next::Nobody => self.back(),
            Next::Stopped(last) => self.last = last,
            Next::Found(ticket) => {
                self.chosen.push(ticket)?;
                self.last = None;
            }
        }
        Ok(())
    }

    /// The chosen, who need nobody else, are handed out, unless they were before. The search goes back from them.
    fn take(&mut self, alloc: Global) -> Result<Option<Vec<u64>>, AllocError>
        requires { 0 < length self.old.chosen.items }
        ensures ok { IfOk result (λ taken. (waiting : Waiting) → IsStand waiting self.old
            → first_unmet (named waiting self.old.chosen.items) ≡ None
            → (self.old.is_clear ≡ true → is_crowded (named waiting self.old.chosen.items) ≡ false)
            → IsStep waiting self.old self.new (option_map (λ meeting. meeting.items) taken)) }
        ensures err { OnErr result (IsUnmoved self.old self.new) }
    {
        let meeting = by_arrival(alloc, self.chosen.as_slice())?;
        if is_among(self.found.as_slice(), meeting.as_slice()) {
            self.back();
            return Ok(None);
        }
        let copy = Vec::from_slice(alloc, meeting.as_slice())?;
        self.found.push(copy)?;
        self.back();
        Ok(Some(meeting))
    }

    /// The chosen are as many as a run can have, and lack somebody. The search goes back from them.
    fn cut(&mut self)
        requires { 0 < length self.old.chosen.items }
        ensures { (waiting : Waiting) → IsStand waiting self.old
            → (demand : Pattern) → first_unmet (named waiting self.old.chosen.items) ≡ Some demand
            → MOST_MEMBERS ≤ length self.old.chosen.items → Moves waiting self.old self.new }
    {
        self.is_cut = true;
        self.back();
    }

    /// One more step: somebody is chosen, or a meeting is found, or the search goes back.
    fn step(
        &mut self,
        alloc: Global,
        index: &Index,
        looks: &mut usize,
    ) -> Result<Option<Vec<u64>>, AllocError>
        requires stand { IsStand index.now self.old }
        requires some { 0 < length self.old.chosen.items }
        requires looks { 0 < looks.old }
        ensures looks { looks.new ≤ looks.old }
        ensures looked { OnOk result (looks.new < looks.old) }
        ensures ok { IfOk result (λ found. IsStep index.now self.old self.new (option_map (λ meeting. meeting.items) found)) }
        ensures err { OnErr result (IsUnmoved self.old self.new) }
    {
        let parties = index.parties(alloc, self.chosen.as_slice())?;
        if self.is_clear && is_crowded(parties.as_slice()) {
            *looks -= 1;
            self.back();
            return Ok(None);
        }
        match first_unmet(parties.as_slice()) {
            None => {
                *looks -= 1;
                self.take(alloc)
            }
            Some(_) if self.chosen.len() >= MOST_MEMBERS => {
                *looks -= 1;
                self.cut();
                Ok(None)
            }
            Some(demand) => {
                self.choose(index, demand, looks)?;
                Ok(None)
            }
        }
    }

    /// Both passes are over: what they tell of the root.
    fn rest(&self) -> Found
        ensures { (waiting : Waiting) → IsStand waiting self.now → length self.now.chosen.items ≡ 0
            → self.now.is_clear ≡ false → IsRest waiting self.now result }
    {
        if self.found.is_empty() && !self.is_cut {
            Found::Lonely
        } else {
            Found::Nobody
        }
    }

    /// Another meeting of the root, clear ones first, or why there is none. It looks at as many candidates as `looks`
    /// says, which counts down, and goes on there at the next call. An error leaves it where it stands.
    pub fn next(
        &mut self,
        alloc: Global,
        index: &Index,
        looks: &mut usize,
    ) -> Result<Found, AllocError>
        requires { IsStand index.now self.old }
        ensures stand { IsStand index.now self.new }
        ensures root { root_of self.new ≡ root_of self.old }
        ensures looks { looks.new ≤ looks.old }
        ensures ok { IfOk result (IsFound index.now self.old self.new looks.old looks.new) }
        ensures err { OnErr result (found_of self.new ≡ found_of self.old) }
    {
        if self.found.len() >= MOST_CHOICES {
            return Ok(Found::Stopped(Bound::Choices));
        }
        while *looks > 0 {
            if !self.chosen.is_empty() {
                if let Some(meeting) = self.step(alloc, index, looks)? {
                    return Ok(Found::Meeting(meeting));
                }
            } else if self.is_clear {
                *looks -= 1;
                self.begin_again()?;
            } else {
                return Ok(self.rest());
            }
        }
        Ok(Found::Stopped(Bound::Looks))
    }
}
