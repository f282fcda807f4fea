//! Batches are made up.
ghost use Rattle.std.specs.Prelude.{◌≡◌, ◌<◌, ◌≤◌, ◌+◌, All, None, OnErr, OnOk, IfErr, IfOk, Some, false, length, true};
ghost use Rattle.ent_group.specs.declared.members.TheConstants.{MOST_MEMBERS};
ghost use Rattle.ent_meetings.specs.PartyMeeting.{IsClosed};
ghost use Rattle.ent_tree.specs.declared.limits.TheConstants.{MOST_SCRIPTS};
ghost use Rattle.ent_value.specs.declared.refusal.Refusal.TheVariants.{Fault};
ghost use Rattle.ent_admission.specs.Acts.{Advances};
ghost use Rattle.ent_admission.specs.Admission.{IsAtRest, IsBatch, parties_of};
ghost use Rattle.ent_admission.specs.declared.planning.NotPlanned.TheVariants.{Absent, Busy, MustTurn, Open, TooMany};
ghost use Rattle.ent_waiting.specs.WaitingList.{waiter_of, waits_idle};

use crate::admission::Admission;
use crate::batch::Again;
use ent_group::MOST_MEMBERS;
use ent_tree::MOST_SCRIPTS;
use ent_value::Refusal;
use ent_waiting::{Ticket, WaitingList};
use std::alloc::{AllocError, Global};
use std::collections::BTreeSet;

/// Why a batch isn't made up.
#[derive(Clone, Copy, Debug, PartialEq, Eq)]
pub enum NotPlanned {
    /// The last one isn't over, since memory ran out in its midst.
    Busy,
    /// One of them doesn't wait.
    Absent,
    /// A run has fewer members.
    TooMany,
    /// One of them demands what none of them may offer.
    Open,
    /// The core takes fewer scripts more: the epoch has to end first.
    MustTurn,
}

/// Whether all of these wait, and are in no batch.
fn all_wait(list: &WaitingList, tickets: &[u64]) -> bool
    ensures waits { result ≡ true → All (λ ticket. waits_idle (waiter_of list.now ticket) ≡ true) tickets.now }
    ensures absent { result ≡ false → ¬ All (λ ticket. waits_idle (waiter_of list.now ticket) ≡ true) tickets.now }
{
    for ticket in tickets {
        if !list.waits_idle(Ticket::new(*ticket)) {
            return false;
        }
    }
    true
}

/// The numbers of a set, ascending.
fn numbers(alloc: Global, tickets: &BTreeSet<u64>) -> Result<Vec<u64>, AllocError>
    ensures { IfOk result (λ numbers. numbers.items ≡ tickets.now.keys) }
{
    let mut numbers = Vec::with_capacity(alloc, tickets.len())?;
    for ticket in tickets.iter() {
        numbers.push(*ticket)?;
    }
    Ok(numbers)
}

impl Admission {
    /// Why these can't be the next batch; nothing where they can.
    fn not_planned(&self, tickets: &BTreeSet<u64>) -> Result<Option<NotPlanned>, AllocError>
        ensures ok { IfOk result (λ fault. fault ≡ None → IsBatch self.now tickets.now.keys) }
        ensures at_rest { IfOk result (λ fault. fault ≡ None → IsAtRest self.now) }
        ensures room { IfOk result (λ fault. fault ≡ None
            → length self.now.epoch.core.submitted + length tickets.now.keys ≤ MOST_SCRIPTS) }
        ensures busy { IfOk result (λ fault. fault ≡ Some Busy → ¬ IsAtRest self.now) }
        ensures absent { IfOk result (λ fault. fault ≡ Some Absent
            → ¬ All (λ ticket. waits_idle (waiter_of self.now.list ticket) ≡ true) tickets.now.keys) }
        ensures too_many { IfOk result (λ fault. fault ≡ Some TooMany → MOST_MEMBERS < length tickets.now.keys) }
        ensures open { IfOk result (λ fault. fault ≡ Some Open → ¬ IsClosed (parties_of self.now.list tickets.now.keys)) }
        ensures must_turn { IfOk result (λ fault. fault ≡ Some MustTurn
            → MOST_SCRIPTS < length self.now.epoch.core.submitted + length tickets.now.keys) }
    {
        if !self.is_at_rest() {
            return Ok(Some(NotPlanned::Busy));
        }
        let count = tickets.len();
        if count > MOST_MEMBERS {
            return Ok(Some(NotPlanned::TooMany));
        }
        if self.epoch.submitted() > MOST_SCRIPTS - count {
            return Ok(Some(NotPlanned::MustTurn));
        }
        let numbers = numbers(self.alloc, tickets)?;
        if !all_wait(&self.list, numbers.as_slice()) {
            return Ok(Some(NotPlanned::Absent));
        }
        if !self.index.is_closed(self.alloc, numbers.as_slice())? {
            return Ok(Some(NotPlanned::Open));
        }
        Ok(None)
    }

    /// Makes these the next batch. Those of them who have no fate of their own after it wait again as `again` says. At
    /// a refusal nothing changes.
    pub fn plan(&mut self, tickets: BTreeSet<u64>, again: Again) -> Result<(), Refusal<NotPlanned>>
        ensures batch { OnOk result (IsBatch self.old tickets.keys) }
        ensures at_rest { OnOk result (IsAtRest self.old) }
        ensures ok { OnOk result (self.new ≡ record self.old { coming = tickets; again = again }) }
        ensures advances { Advances self.old self.new }
        ensures err { OnErr result (self.new ≡ self.old) }
        ensures busy { IfErr result (λ refusal. refusal ≡ Fault Busy → ¬ IsAtRest self.old) }
        ensures absent { IfErr result (λ refusal. refusal ≡ Fault Absent
            → ¬ All (λ ticket. waits_idle (waiter_of self.old.list ticket) ≡ true) tickets.keys) }
        ensures too_many { IfErr result (λ refusal. refusal ≡ Fault TooMany → MOST_MEMBERS < length tickets.keys) }
        ensures open { IfErr result (λ refusal. refusal ≡ Fault Open
            → ¬ IsClosed (parties_of self.old.list tickets.keys)) }
        ensures must_turn { IfErr result (λ refusal. refusal ≡ Fault MustTurn
            → MOST_SCRIPTS < length self.old.epoch.core.submitted + length tickets.keys) }
    {
        if let Some(fault) = self.not_planned(&tickets)? {
            return Err(Refusal::Fault(fault));
        }
        self.coming = tickets;
        self.again = again;
        Ok(())
    }
}
