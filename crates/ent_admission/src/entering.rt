//! Those of a batch are submitted.
ghost use Rattle.std.specs.Prelude.{◌≡◌, ◌<◌, ◌≤◌, ◌+◌, ℕ, OnErr, OnOk, IfOk, false, length, true};
ghost use Rattle.std.specs.BTreeSet.{contains};
ghost use Rattle.std.specs.Ordering.{nat_cmp};
ghost use Rattle.ent_admission.specs.Admission.{HasRoomFor, IsFormed};
ghost use Rattle.ent_admission.specs.Moves.{Chooses, Enters, Goes};
ghost use Rattle.ent_epoch.specs.Epoch.{AddsOne, Takes};
ghost use Rattle.ent_waiting.specs.WaitingList.{Onward, StandsAt};
ghost use Rattle.ent_waiting.specs.declared.waiter.WaitingPlace.TheVariants.{Chosen};

use crate::admission::Admission;
use ent_epoch::Epoch;
use ent_tree::Script;
use ent_value::Refusal;
use ent_waiting::{Submission, Ticket};
use std::alloc::{AllocError, Global};

/// Submits a script that the core takes, where it has room for one more. Where memory runs out nothing changes.
fn submit_to(
    alloc: Global,
    epoch: &mut Epoch,
    ticket: Ticket,
    script: &Script,
) -> Result<Submission, AllocError>
    requires formed { IsFormed epoch.old.core.opening script.now }
    requires room { HasRoomFor epoch.old 1 }
    ensures ok { IfOk result (λ submission. Takes epoch.old ticket script.now submission epoch.new) }
    ensures adds { OnOk result (AddsOne epoch.old.core epoch.new.core) }
    ensures next { IfOk result (λ submission. submission.tx ≡ length epoch.old.tickets + 1) }
    ensures err { OnErr result (epoch.new ≡ epoch.old) }
{
    match epoch.submit(alloc, ticket, script) {
        Ok(submission) => Ok(submission),
        Err(Refusal::Memory) => Err(AllocError),
        Err(Refusal::Fault(_)) => unreachable!(),
    }
}

impl Admission {
    /// One of the batch is made ready. Where memory runs out nothing changes.
    fn ready(&mut self, ticket: u64) -> Result<(), AllocError>
        requires comes { contains nat_cmp self.old.coming ticket ≡ true }
        ensures ok { OnOk result (Chooses self.old self.new) }
        ensures stands { OnOk result (StandsAt self.new.list ticket Chosen) }
        ensures coming { self.new.coming ≡ self.old.coming }
        ensures again { self.new.again ≡ self.old.again }
        ensures err { OnErr result (self.new ≡ self.old) }
        ensures opening { self.new.epoch.core.opening ≡ self.old.epoch.core.opening }
        ensures onward { Onward self.old.list self.new.list }
    {
        self.list.choose(Ticket::new(ticket))?;
        Ok(())
    }

    /// One of the batch that is ready is submitted. Where memory runs out nothing changes.
    fn submit(&mut self, ticket: u64) -> Result<(), AllocError>
        requires comes { contains nat_cmp self.old.coming ticket ≡ true }
        requires stands { StandsAt self.old.list ticket Chosen }
        ensures ok { OnOk result (Enters self.old self.new) }
        ensures fewer { OnOk result (length self.new.coming.keys < length self.old.coming.keys) }
        ensures err { OnErr result (self.new ≡ self.old) }
        ensures opening { self.new.epoch.core.opening ≡ self.old.epoch.core.opening }
        ensures onward { Onward self.old.list self.new.list }
    {
        let own = Ticket::new(ticket);
        let Some(waiter) = self.list.waiter(own) else {
            unreachable!();
        };
        let submission = submit_to(self.alloc, &mut self.epoch, own, &waiter.script)?;
        self.list.submitted(own, submission);
        self.coming.remove(&ticket);
        Ok(())
    }

    /// One of the batch is made ready, and submitted. Where memory runs out, it may be ready.
    fn enter(&mut self, ticket: u64) -> Result<(), AllocError>
        requires comes { contains nat_cmp self.old.coming ticket ≡ true }
        ensures goes { Goes self.old self.new }
        ensures fewer { OnOk result (length self.new.coming.keys < length self.old.coming.keys) }
        ensures opening { self.new.epoch.core.opening ≡ self.old.epoch.core.opening }
        ensures onward { Onward self.old.list self.new.list }
    {
        self.ready(ticket)?;
        self.submit(ticket)?;
        Ok(())
    }

    /// All of the batch are submitted who weren't yet. Where memory runs out, some are.
    pub(crate) fn enter_all(&mut self) -> Result<(), AllocError>
        ensures goes { Goes self.old self.new }
        ensures all_in { OnOk result ((ticket : ℕ) → contains nat_cmp self.new.coming ticket ≡ false) }
        ensures opening { self.new.epoch.core.opening ≡ self.old.epoch.core.opening }
        ensures onward { Onward self.old.list self.new.list }
    {
        while let Some(first) = self.coming.first() {
            let ticket = *first;
            self.enter(ticket)?;
        }
        Ok(())
    }
}
