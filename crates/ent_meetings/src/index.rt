//! Those who wait, and who of them offers or demands something.
ghost use Rattle.std.specs.Prelude.{All, ◌≡◌, ◌≤◌, ◌<◌, ◌^◌, ◌↔◌, ℕ, [], None, Some, OnErr, OnOk, IfErr, IfOk, MatchOption, is_some, length};
ghost use Rattle.std.specs.BTreeMap.{insert_entry, is_at};
ghost use Rattle.std.specs.Map.{keys_of, remove_entry};
ghost use Rattle.std.specs.Map.Iter.{ShowsInOrder, deref_pair};
ghost use Rattle.ent_meetings.specs.declared.party.Party.{Party};
ghost use Rattle.std.specs.List.Sorted.{IsStrictlySortedBy};
ghost use Rattle.std.specs.Option.{option_copied};
ghost use Rattle.std.specs.Ordering.{nat_cmp};
ghost use Rattle.ent_meetings.specs.Next.{IsAfter, IsNext};
ghost use Rattle.ent_meetings.specs.Postings.{IsPosted};
ghost use Rattle.ent_meetings.specs.Sides.{fits_at, patterns_of};
ghost use Rattle.ent_meetings.specs.Group.{seen};
ghost use Rattle.ent_meetings.specs.Waiting.{ChangesAt, demands_at, named, offers_at, party_at};

use crate::board::{post_party, unpost_party};
use crate::next::Next;
use crate::postings::{Postings, leap};
use crate::side::{SoughtSide, fits};
use crate::{Party, Pattern};
use std::alloc::{AllocError, AllocFailed, Global};
use std::collections::btree_map::Iter;
use std::collections::{BTreeMap, BTreeSet};
use std::marker::Model;

/// Those who wait, each under a ticket: the lesser the ticket, the longer.
#[derive(Drop)]
pub struct Index {
    parties: BTreeMap<u64, Party>,
    offers: Postings,
    demands: Postings,
}

impl Model for Index {
    ghost use Rattle.ent_meetings.specs.Waiting.{Waiting};

    ghost Value = { Waiting };

    ghost use Rattle.ent_meetings.specs.Indexed.{IsIndexed};

    ghost view = { λ index. index.parties.entries };

    ghost invariant = { λ index. IsIndexed index.parties.entries index.offers index.demands };
}

/// The least ticket after this one, if there is one, or the least of all.
fn following(last: Option<u64>) -> Option<u64>
    ensures { MatchOption result
        ((ticket : ℕ) → ticket < 2 ^ 64 → IsAfter last ticket → ⊥)
        (λ next. (ticket : ℕ) → IsAfter last ticket ↔ (next ≤ ticket)) }
{
    match last {
        None => Some(0),
        Some(ticket) => ticket.checked_add(1),
    }
}

impl Index {
    /// Nobody waits. It takes no memory.
    pub fn new(alloc: Global) -> Self
        ensures { result ≡ [] }
    {
        Index {
            parties: BTreeMap::new(alloc),
            offers: BTreeSet::new(alloc),
            demands: BTreeSet::new(alloc),
        }
    }

    /// How many wait.
    pub fn len(&self) -> usize
        ensures len { result ≡ length self.now }
        ensures by_arrival { IsStrictlySortedBy nat_cmp (keys_of self.now) }
    {
        self.parties.len()
    }

    /// Those who wait, by arrival.
    pub fn iter(&self) -> Iter<'_, u64, Party>
        ensures waiting { result ≡ self.now }
        ensures by_arrival { IsStrictlySortedBy nat_cmp (keys_of self.now) }
        ensures runs { ShowsInOrder (deref_pair {K = ℕ} {X = Party}) }
    {
        self.parties.iter()
    }

    /// Who waits under a ticket.
    pub fn party(&self, ticket: u64) -> Option<&Party>
        ensures { option_copied result ≡ party_at self.now ticket }
    {
        self.parties.get(&ticket)
    }

    /// The parties that wait under tickets.
    pub(crate) fn parties(&self, alloc: Global, tickets: &[u64]) -> Result<Vec<&Party>, AllocError>
        ensures { IfOk result (λ parties. seen parties.items ≡ named self.now tickets.now) }
    {
        let mut parties = Vec::with_capacity(alloc, tickets.len())?;
        for ticket in tickets {
            if let Some(party) = self.party(*ticket) {
                parties.push(party)?;
            }
        }
        Ok(parties)
    }

    /// Whether somebody waits under a ticket.
    pub fn contains(&self, ticket: u64) -> bool
        ensures { result ≡ is_some (party_at self.now ticket) }
    {
        self.parties.contains_key(&ticket)
    }

    /// Somebody comes to wait under a ticket that nobody has. Where memory runs out the party comes back, and the index
    /// is as it was.
    pub fn insert(&mut self, ticket: u64, party: Party) -> Result<(), AllocFailed<Party>>
        requires { party_at self.old ticket ≡ None }
        ensures ok { OnOk result (self.new ≡ insert_entry nat_cmp self.old ticket party) }
        ensures updates { OnOk result (ChangesAt ticket (Some party) self.old self.new) }
        ensures err { OnErr result (self.new ≡ self.old) }
        ensures returned { IfErr result (λ failed. failed.value ≡ party) }
    {
        match post_party(&mut self.offers, &mut self.demands, ticket, &party) {
            Ok(()) => {}
            Err(AllocError) => return Err(AllocFailed { value: party }),
        }
        match self.parties.insert(ticket, party) {
            Ok(_none) => Ok(()),
            Err(refused) => {
                let (_ticket, party) = refused.value;
                unpost_party(&mut self.offers, &mut self.demands, ticket, &party);
                Err(AllocFailed { value: party })
            }
        }
    }

    /// Who waits under a ticket goes. It takes no memory.
    pub fn remove(&mut self, ticket: u64) -> Option<Party>
        ensures party { result ≡ party_at self.old ticket }
        ensures others { self.new ≡ remove_entry (is_at (nat_cmp ticket)) self.old }
        ensures updates { ChangesAt ticket None self.old self.new }
    {
        let party = self.parties.remove(&ticket)?;
        unpost_party(&mut self.offers, &mut self.demands, ticket, &party);
        Some(party)
    }

    /// Whether who waits under a ticket is one of those who are sought.
    fn fits(&self, side: SoughtSide, sought: &Pattern, ticket: u64) -> bool
        ensures { result ≡ fits_at side self.now sought.now ticket }
    {
        match self.parties.get(&ticket) {
            Some(party) => fits(side, sought, party),
            None => false,
        }
    }

    /// Where those are posted who are sought.
    fn postings(&self, side: SoughtSide) -> &Postings
        ensures posted { IsPosted (patterns_of side) self.now result.now }
        ensures tickets { All (λ ticket. ticket < 2 ^ 64) (keys_of self.now) }
    {
        match side {
            SoughtSide::Offers => &self.offers,
            SoughtSide::Demands => &self.demands,
        }
    }

    /// The next one after a ticket who is sought.
    fn next(
        &self,
        side: SoughtSide,
        sought: &Pattern,
        after: Option<u64>,
        looks: &mut usize,
    ) -> Next
        ensures next { IsNext (fits_at side self.now sought.now) after looks.old looks.new result }
        ensures looks { looks.new ≤ looks.old }
        ensures looked { 0 < looks.old → looks.new < looks.old }
    {
        let postings = self.postings(side);
        let mut last = after;
        while *looks > 0 {
            *looks -= 1;
            let Some(from) = following(last) else {
                return Next::Nobody;
            };
            let Some(ticket) = leap(postings, sought, from) else {
                return Next::Nobody;
            };
            if self.fits(side, sought, ticket) {
                return Next::Found(ticket);
            }
            last = Some(ticket);
        }
        Next::Stopped(last)
    }

    /// The next one after a ticket, or the first of all, who may offer what is demanded. `looks` says how many
    /// candidates may be looked at, and counts down.
    pub fn next_offerer(&self, demand: &Pattern, after: Option<u64>, looks: &mut usize) -> Next
        ensures next { IsNext (offers_at self.now demand.now) after looks.old looks.new result }
        ensures looks { looks.new ≤ looks.old }
        ensures looked { 0 < looks.old → looks.new < looks.old }
    {
        self.next(SoughtSide::Offers, demand, after, looks)
    }

    /// The next one after a ticket, or the first of all, who demands what the offer may meet. `looks` says how many
    /// candidates may be looked at, and counts down.
    pub fn next_demander(&self, offer: &Pattern, after: Option<u64>, looks: &mut usize) -> Next
        ensures next { IsNext (demands_at self.now offer.now) after looks.old looks.new result }
        ensures looks { looks.new ≤ looks.old }
        ensures looked { 0 < looks.old → looks.new < looks.old }
    {
        self.next(SoughtSide::Demands, offer, after, looks)
    }
}
