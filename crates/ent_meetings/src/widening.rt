//! Meetings that are widened by others who wait.
ghost use Rattle.std.specs.Prelude.{◌≡◌, ◌≤◌, ◌<◌, ◌∷◌, [], ℕ, IfOk, OnOk, length, slice_get};
ghost use Rattle.std.specs.Option.{option_copied};
ghost use Rattle.ent_group.specs.declared.members.TheConstants.{MOST_MEMBERS};
ghost use Rattle.ent_meetings.specs.Gathering.{Grows, IsGathering};
ghost use Rattle.ent_meetings.specs.Group.{seen};
ghost use Rattle.ent_meetings.specs.Meeting.{IsClearMeeting, IsMeeting};
ghost use Rattle.ent_meetings.specs.Settling.{GoesPast, IsTried, IsWhole};
ghost use Rattle.ent_meetings.specs.Widening.{IsWidened, MightCome};

use crate::group::may_come;
use crate::index::Index;
use crate::next::Next;
use crate::tickets::by_arrival;
use crate::{Party, Pattern};
use ent_group::MOST_MEMBERS;
use std::alloc::{AllocError, Global};

/// A set of those who wait that grows.
#[derive(Drop)]
struct Gathering<'a> {
    tickets: Vec<u64>,
    /// What each of them offers and demands.
    parties: Vec<&'a Party>,
}

impl<'a> Gathering<'a> {
    /// Who waits under a ticket comes, if there is room and they may.
    fn let_in(&mut self, index: &'a Index, ticket: u64) -> Result<(), AllocError>
        requires { IsGathering index.now self.old }
        ensures ok { OnOk result (Grows index.now self.old self.new) }
        ensures tried { OnOk result (length self.new.tickets.items < MOST_MEMBERS
            → IsTried index.now self.new.tickets.items ticket) }
    {
        if self.tickets.len() >= MOST_MEMBERS || self.tickets.as_slice().contains(&ticket) {
            return Ok(());
        }
        if let Some(party) = index.party(ticket) {
            if may_come(self.parties.as_slice(), party) {
                self.tickets.push(ticket)?;
                self.parties.push(party)?;
            }
        }
        Ok(())
    }

    /// Those come who demand what an offer may meet, if they may.
    fn let_in_for(
        &mut self,
        index: &'a Index,
        offer: &Pattern,
        looks: &mut usize,
    ) -> Result<(), AllocError>
        requires { IsGathering index.now self.old }
        ensures looks { looks.new ≤ looks.old }
        ensures ok { OnOk result (Grows index.now self.old self.new) }
        ensures past { OnOk result (0 < looks.new → length self.new.tickets.items < MOST_MEMBERS
            → GoesPast index.now self.old.tickets.items self.new.tickets.items (offer.now ∷ [])) }
    {
        let mut last = None;
        while *looks > 0 {
            match index.next_demander(offer, last, looks) {
                Next::Found(ticket) => {
                    self.let_in(index, ticket)?;
                    last = Some(ticket);
                }
                Next::Nobody | Next::Stopped(_) => return Ok(()),
            }
        }
        Ok(())
    }

    /// Those come who demand what a party offers, if they may.
    fn let_in_all(
        &mut self,
        index: &'a Index,
        party: &Party,
        looks: &mut usize,
    ) -> Result<(), AllocError>
        requires { IsGathering index.now self.old }
        ensures looks { looks.new ≤ looks.old }
        ensures ok { OnOk result (Grows index.now self.old self.new) }
        ensures past { OnOk result (0 < looks.new → length self.new.tickets.items < MOST_MEMBERS
            → GoesPast index.now self.old.tickets.items self.new.tickets.items party.now.offers) }
    {
        for offer in party.offers.as_slice() {
            self.let_in_for(index, offer, looks)?;
        }
        Ok(())
    }

    /// What the member at a place offers and demands, if there is one.
    fn member(&self, place: usize) -> Option<&'a Party>
        ensures { option_copied result ≡ slice_get (seen self.now.parties.items) place }
    {
        self.parties.get(place).copied()
    }

    /// Those come who demand what somebody of the set offers, one member after the other.
    fn widen(&mut self, index: &'a Index, looks: &mut usize) -> Result<(), AllocError>
        requires { IsGathering index.now self.old }
        ensures looks { looks.new ≤ looks.old }
        ensures ok { OnOk result (Grows index.now self.old self.new) }
        ensures whole { OnOk result (0 < looks.new → length self.new.tickets.items < MOST_MEMBERS
            → IsWhole index.now self.new.tickets.items) }
    {
        for place in 0..MOST_MEMBERS {
            let Some(party) = self.member(place) else {
                return Ok(());
            };
            self.let_in_all(index, party, looks)?;
        }
        Ok(())
    }
}

/// A meeting with others who wait and whose demands it meets, as long as a run has room for them: those who demand what
/// it offers, those who demand what these offer, and so on. Nobody comes who demands what two offers of the wider
/// meeting could meet, nor who offers what somebody of the meeting demands. So nobody is held back for them.
///
/// It looks at as many candidates as `looks` says, which counts down. Where none are left, others might come; else
/// nobody else might, as long as there is room.
pub fn widen(
    alloc: Global,
    index: &Index,
    meeting: Vec<u64>,
    looks: &mut usize,
) -> Result<Vec<u64>, AllocError>
    ensures looks { looks.new ≤ looks.old }
    ensures meets { IfOk result (λ wider. (root : ℕ) → IsMeeting index.now root meeting.items
        → IsMeeting index.now root wider.items) }
    ensures clear { IfOk result (λ wider. (root : ℕ) → IsClearMeeting index.now root meeting.items
        → IsClearMeeting index.now root wider.items) }
    ensures whole { IfOk result (λ wider. 0 < looks.new → length wider.items < MOST_MEMBERS → (ticket : ℕ)
        → MightCome index.now wider.items ticket → ⊥) }
    ensures widened { IfOk result (λ wider. IsWidened index.now meeting.items wider.items) }
{
    let mut gathering = Gathering {
        parties: index.parties(alloc, meeting.as_slice())?,
        tickets: meeting,
    };
    gathering.widen(index, looks)?;
    by_arrival(alloc, gathering.tickets.as_slice())
}
