//! Scripts come to wait, and are taken back.
ghost use Rattle.std.specs.Prelude.{◌≡◌, ◌⊎◌, ◌+◌, OnErr, OnOk, IfErr, IfOk, None, Some, false, true};
ghost use Rattle.std.specs.BTreeSet.{contains};
ghost use Rattle.std.specs.Ordering.{nat_cmp};
ghost use Rattle.ent_value.specs.declared.refusal.Refusal.TheVariants.{Fault};
ghost use Rattle.ent_admission.specs.Acts.{OnlyShifts};
ghost use Rattle.ent_admission.specs.Admission.{IsFormed};
ghost use Rattle.ent_waiting.specs.Waiter.{newcomer};
ghost use Rattle.ent_waiting.specs.WaitingList.{IsFull, IsIdle, IsInBatch, IsUsed, MayComeBack, Onward, admitted, ending_as, moved, waiter_of};
ghost use Rattle.ent_waiting.specs.declared.ended.Ending.TheVariants.{Withdrawn};
ghost use Rattle.ent_waiting.specs.declared.waiter.Waiter.{Waiter as WaiterSeen};
ghost use Rattle.ent_waiting.specs.declared.waiter.WaitingPlace.TheVariants.{Queued, Resting};
ghost use Rattle.ent_waiting.specs.declared.waiting_list.Full.{Full as FullSeen};
ghost use Rattle.ent_waiting.specs.declared.waiting_list.NotRestored.TheVariants.{NoRoom, Used};
ghost use Rattle.ent_waiting.specs.declared.waiting_list.NotWithdrawn.TheVariants.{Absent, InBatch};

use crate::admission::Admission;
use ent_meetings::Party;
use ent_tree::Script;
use ent_value::Refusal;
use ent_waiting::{Full, NotRestored, NotWithdrawn, Patience, Rank, Ticket};
use std::alloc::AllocError;

impl Admission {
    /// Takes a script in, which waits in the queue of this rank, under the next ticket. At a refusal nothing changes.
    pub fn put(
        &mut self,
        script: Script,
        patience: Patience,
        rank: Rank,
    ) -> Result<Ticket, Refusal<Full>>
        requires formed { IsFormed self.old.epoch.core.opening script }
        ensures ticket { IfOk result (λ ticket. ticket ≡ self.old.list.next) }
        ensures list { OnOk result (let waiter = newcomer script patience 0 rank in
            let list = admitted self.old.list.next waiter self.old.list in
            self.new.list ≡ record list { next = self.old.list.next + 1 }) }
        ensures epoch { self.new.epoch ≡ self.old.epoch }
        ensures coming { self.new.coming ≡ self.old.coming }
        ensures again { self.new.again ≡ self.old.again }
        ensures feed { self.new.feed ≡ self.old.feed }
        ensures news { self.new.news ≡ self.old.news }
        ensures err { OnErr result (self.new ≡ self.old) }
        ensures full { IfErr result (λ refusal. (fault : FullSeen) → refusal ≡ Fault fault → IsFull self.old.list) }
        ensures onward { Onward self.old.list self.new.list }
    {
        let party = Party::of(self.alloc, &script)?;
        let next = self.list.next();
        self.index.insert(next.number(), party)?;
        match self.list.put(script, patience, rank) {
            Ok(ticket) => Ok(ticket),
            Err(refusal) => {
                self.index.remove(next.number());
                Err(refusal)
            }
        }
    }

    /// Takes a script in again that waited in an earlier process, under its ticket, after so many batches. Those of an
    /// earlier process come in the order of their tickets. At a refusal nothing changes.
    pub fn restore(
        &mut self,
        ticket: Ticket,
        script: Script,
        patience: Patience,
        batches: u64,
        rank: Rank,
    ) -> Result<(), Refusal<NotRestored>>
        requires formed { IsFormed self.old.epoch.core.opening script }
        ensures list { OnOk result (let waiter = newcomer script patience batches rank in
            self.new.list ≡ record (admitted ticket waiter self.old.list) { earlier = ticket + 1 }) }
        ensures unused { OnOk result (¬ IsUsed self.old.list ticket) }
        ensures epoch { self.new.epoch ≡ self.old.epoch }
        ensures coming { self.new.coming ≡ self.old.coming }
        ensures again { self.new.again ≡ self.old.again }
        ensures feed { self.new.feed ≡ self.old.feed }
        ensures news { self.new.news ≡ self.old.news }
        ensures err { OnErr result (self.new ≡ self.old) }
        ensures full { IfErr result (λ refusal. refusal ≡ Fault NoRoom → IsFull self.old.list) }
        ensures used { IfErr result (λ refusal. refusal ≡ Fault Used → ¬ MayComeBack self.old.list ticket) }
        ensures onward { Onward self.old.list self.new.list }
    {
        if let Some(fault) = self.list.not_restored(ticket) {
            return Err(Refusal::Fault(fault));
        }
        let party = Party::of(self.alloc, &script)?;
        self.index.insert(ticket.number(), party)?;
        match self.list.restore(ticket, script, patience, batches, rank) {
            Ok(()) => Ok(()),
            Err(refusal) => {
                self.index.remove(ticket.number());
                Err(refusal)
            }
        }
    }

    /// A script waits no more, since its client takes it back. One that is in a batch can't be withdrawn until that is
    /// over. At a refusal nothing changes.
    pub fn withdraw(&mut self, ticket: Ticket) -> Result<(), Refusal<NotWithdrawn>>
        ensures list { OnOk result ((waiter : WaiterSeen)
            → waiter_of self.old.list ticket ≡ Some waiter
            → self.new.list ≡ ending_as ticket Withdrawn false waiter self.old.list) }
        ensures gone { OnOk result (waiter_of self.new.list ticket ≡ None) }
        ensures idle { OnOk result (IsIdle self.old.list ticket) }
        ensures epoch { self.new.epoch ≡ self.old.epoch }
        ensures coming { self.new.coming ≡ self.old.coming }
        ensures again { self.new.again ≡ self.old.again }
        ensures feed { self.new.feed ≡ self.old.feed }
        ensures news { self.new.news ≡ self.old.news }
        ensures err { OnErr result (self.new ≡ self.old) }
        ensures absent { IfErr result (λ refusal. refusal ≡ Fault Absent → waiter_of self.old.list ticket ≡ None) }
        ensures in_batch { IfErr result (λ refusal. refusal ≡ Fault InBatch
            → IsInBatch self.old.list ticket ⊎ (contains nat_cmp self.old.coming ticket ≡ true)) }
        ensures onward { Onward self.old.list self.new.list }
    {
        if self.coming.contains(&ticket.number()) {
            return Err(Refusal::Fault(NotWithdrawn::InBatch));
        }
        self.list.withdraw(ticket)?;
        self.index.remove(ticket.number());
        Ok(())
    }

    /// A script that waits and is in no batch comes into the queue of this rank. Where memory runs out nothing changes.
    pub fn queue(&mut self, ticket: Ticket, rank: Rank) -> Result<(), AllocError>
        ensures ok { OnOk result (self.new ≡ record self.old { list = moved ticket (Queued rank) self.old.list }) }
        ensures err { OnErr result (self.new ≡ self.old) }
        ensures shifts { OnlyShifts self.old self.new }
    {
        self.list.queue(ticket, rank)?;
        Ok(())
    }

    /// A script that waits and is in no batch leaves its queue, and comes into none. Where memory runs out nothing
    /// changes.
    pub fn rest(&mut self, ticket: Ticket) -> Result<(), AllocError>
        ensures ok { OnOk result (self.new ≡ record self.old { list = moved ticket Resting self.old.list }) }
        ensures err { OnErr result (self.new ≡ self.old) }
        ensures shifts { OnlyShifts self.old self.new }
    {
        self.list.rest(ticket)?;
        Ok(())
    }
}
