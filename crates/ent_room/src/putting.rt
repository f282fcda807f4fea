//! Scripts come to wait, and are taken back.
ghost use Rattle.std.specs.Prelude.{◌≡◌, ◌⊎◌, ◌+◌, IfErr, IfOk, None, OnErr, OnOk, Some, false, true};
ghost use Rattle.std.specs.BTreeSet.{contains};
ghost use Rattle.std.specs.Ordering.{nat_cmp};
ghost use Rattle.ent_admission.specs.Admission.{IsFormed};
ghost use Rattle.ent_prepare.specs.Prepared.{IsFirstFault, IsRefused};
ghost use Rattle.ent_prepare.specs.declared.fault.PrepareFault.{PrepareFault as PrepareFaultSeen};
ghost use Rattle.ent_value.specs.declared.refusal.Refusal.TheVariants.{Fault};
ghost use Rattle.ent_waiting.specs.WaitingList.{IsFull, IsIdle, IsInBatch, IsUsed, MayComeBack, Onward, ending_as};
ghost use Rattle.ent_waiting.specs.WaitingList.{waiter_of};
ghost use Rattle.ent_waiting.specs.declared.ended.Ending.TheVariants.{Withdrawn};
ghost use Rattle.ent_waiting.specs.declared.waiter.Waiter.{Waiter as WaiterSeen};
ghost use Rattle.ent_waiting.specs.declared.waiting_list.Full.{Full as FullSeen};
ghost use Rattle.ent_waiting.specs.declared.waiting_list.NotRestored.TheVariants.{NoRoom, Used};
ghost use Rattle.ent_waiting.specs.declared.waiting_list.NotWithdrawn.TheVariants.{Absent, InBatch};
ghost use Rattle.ent_room.specs.Putting.{HasScript, Puts, Restores, patience_of, rank_of, tables_of, with_put};
ghost use Rattle.ent_room.specs.declared.putting.NotPut.TheVariants as not_put;
ghost use Rattle.ent_room.specs.declared.putting.NotPutBack.TheVariants as not_back;

use crate::profile::is_ordinary;
use crate::room::Room;
use ent_bound::BoundVariable;
use ent_prepare::PrepareFault;
use ent_tree::{Runs, Script};
use ent_value::Refusal;
use ent_waiting::{Full, NotRestored, NotWithdrawn, Patience, Rank, Ticket};
use std::alloc::AllocError;

/// For how long a script waits.
#[derive(Clone, Copy, Debug)]
pub enum Stay {
    /// For as many batches as its own WITHIN says.
    AsWritten,
    /// For so many batches in which it takes part.
    Batches(Runs),
    /// Until it is withdrawn.
    UntilWithdrawn,
}

/// Why a script isn't taken in.
#[derive(Clone, Copy, Debug, PartialEq, Eq)]
pub enum NotPut {
    /// As many wait as there may be.
    Full,
    /// The text or a bound value has this fault.
    Faulty(PrepareFault),
}

/// Why a script of an earlier process doesn't come in again.
#[derive(Clone, Copy, Debug, PartialEq, Eq)]
pub enum NotPutBack {
    /// The ticket can't come in again, or as many wait as there may be.
    Refused(NotRestored),
    /// The text or a bound value has this fault.
    Faulty(PrepareFault),
}

/// In how many batches a script takes part before it gives up.
fn patience_of(stay: Stay, script: &Script) -> Patience
    ensures { result ≡ patience_of stay script.now }
{
    match stay {
        Stay::AsWritten => Patience::Batches(script.within),
        Stay::Batches(most) => Patience::Batches(most),
        Stay::UntilWithdrawn => Patience::UntilWithdrawn,
    }
}

/// In which queue a script stands at first.
fn rank_of(script: &Script) -> Rank
    ensures { result ≡ rank_of script.now }
{
    if is_ordinary(script) {
        Rank::Ordinary
    } else {
        Rank::Newcomer
    }
}

impl Room {
    /// A script is to wait under a ticket; whether that is noted.
    fn come(&mut self, ticket: u64, script: &Script) -> Result<bool, AllocError>
        ensures same { self.new ≡ self.old }
    {
        let declared = self.admission.epoch().core().opening().tables.as_slice();
        self.prospects.come(self.alloc, declared, ticket, script)
    }

    /// Takes a script in that has no fault of form, and gives it the next ticket. At a refusal nothing changes.
    pub(crate) fn take_in(&mut self, script: Script, stay: Stay) -> Result<Ticket, Refusal<Full>>
        requires formed { IsFormed self.old.admission.epoch.core.opening script }
        ensures ticket { IfOk result (λ ticket. ticket ≡ self.old.admission.list.next) }
        ensures list { OnOk result (self.new.admission.list ≡ with_put script stay self.old.admission.list) }
        ensures epoch { self.new.admission.epoch ≡ self.old.admission.epoch }
        ensures coming { self.new.admission.coming ≡ self.old.admission.coming }
        ensures feed { self.new.admission.feed ≡ self.old.admission.feed }
        ensures news { self.new.admission.news ≡ self.old.admission.news }
        ensures last { self.new.last ≡ self.old.last }
        ensures err { OnErr result (self.new ≡ self.old) }
        ensures full { IfErr result (λ refusal. (fault : FullSeen)
            → refusal ≡ Fault fault
            → IsFull self.old.admission.list) }
        ensures onward { Onward self.old.admission.list self.new.admission.list }
    {
        let patience = patience_of(stay, &script);
        let rank = rank_of(&script);
        let next = self.admission.list().next().number();
        let is_noted = self.come(next, &script)?;
        match self.admission.put(script, patience, rank) {
            Ok(ticket) => Ok(ticket),
            Err(refusal) => {
                if is_noted {
                    self.prospects.take_back(next);
                }
                Err(refusal)
            }
        }
    }

    /// Whether a text is a script that may wait, with these values bound in it; or the first fault of the text, the
    /// values or the form, as `put` tells it. Nothing changes.
    pub fn examine(
        &mut self,
        text: &[u8],
        variables: &[BoundVariable],
    ) -> Result<(), Refusal<PrepareFault>>
        ensures ok { OnOk result (HasScript self.old.admission text.now variables.now) }
        ensures refused { IfErr result (λ refusal.
            IsRefused (tables_of self.old.admission) text.now variables.now refusal) }
        ensures same { self.new ≡ self.old }
    {
        self.preparing.prepare(text, variables)?;
        Ok(())
    }

    /// Takes a script in by its text, with these values bound in it, and gives it the next ticket. It waits from then
    /// on. At a refusal nothing changes: it tells the first fault of the text, the values or the form, or that as many
    /// wait as there may be.
    pub fn put(
        &mut self,
        text: &[u8],
        variables: &[BoundVariable],
        stay: Stay,
    ) -> Result<Ticket, Refusal<NotPut>>
        ensures ticket { IfOk result (λ ticket. ticket ≡ self.old.admission.list.next) }
        ensures puts { OnOk result
            (Puts self.old.admission text.now variables.now stay self.new.admission.list) }
        ensures epoch { self.new.admission.epoch ≡ self.old.admission.epoch }
        ensures coming { self.new.admission.coming ≡ self.old.admission.coming }
        ensures feed { self.new.admission.feed ≡ self.old.admission.feed }
        ensures news { self.new.admission.news ≡ self.old.admission.news }
        ensures last { self.new.last ≡ self.old.last }
        ensures err { OnErr result (self.new ≡ self.old) }
        ensures faulty { IfErr result (λ refusal. (fault : PrepareFaultSeen)
            → refusal ≡ Fault (not_put.Faulty fault)
            → IsFirstFault (tables_of self.old.admission) text.now variables.now fault) }
        ensures full { IfErr result (λ refusal. refusal ≡ Fault not_put.Full → IsFull self.old.admission.list) }
        ensures onward { Onward self.old.admission.list self.new.admission.list }
    {
        let script = match self.preparing.prepare(text, variables) {
            Ok(script) => script,
            Err(Refusal::Memory) => return Err(Refusal::Memory),
            Err(Refusal::Fault(fault)) => return Err(Refusal::Fault(NotPut::Faulty(fault))),
        };
        match self.take_in(script, stay) {
            Ok(ticket) => Ok(ticket),
            Err(Refusal::Memory) => Err(Refusal::Memory),
            Err(Refusal::Fault(Full)) => Err(Refusal::Fault(NotPut::Full)),
        }
    }

    /// Takes a script in again that waited in an earlier process, under its ticket, after so many batches that count.
    /// Those of an earlier process come in the order of their tickets. At a refusal nothing changes.
    pub fn restore(
        &mut self,
        ticket: Ticket,
        text: &[u8],
        variables: &[BoundVariable],
        stay: Stay,
        batches: u64,
    ) -> Result<(), Refusal<NotPutBack>>
        ensures unused { OnOk result (¬ IsUsed self.old.admission.list ticket) }
        ensures restores { OnOk result
            (Restores self.old.admission ticket text.now variables.now stay batches self.new.admission.list) }
        ensures epoch { self.new.admission.epoch ≡ self.old.admission.epoch }
        ensures coming { self.new.admission.coming ≡ self.old.admission.coming }
        ensures feed { self.new.admission.feed ≡ self.old.admission.feed }
        ensures news { self.new.admission.news ≡ self.old.admission.news }
        ensures last { self.new.last ≡ self.old.last }
        ensures err { OnErr result (self.new ≡ self.old) }
        ensures faulty { IfErr result (λ refusal. (fault : PrepareFaultSeen)
            → refusal ≡ Fault (not_back.Faulty fault)
            → IsFirstFault (tables_of self.old.admission) text.now variables.now fault) }
        ensures full { IfErr result (λ refusal. refusal ≡ Fault (not_back.Refused NoRoom)
            → IsFull self.old.admission.list) }
        ensures used { IfErr result (λ refusal. refusal ≡ Fault (not_back.Refused Used)
            → ¬ MayComeBack self.old.admission.list ticket) }
        ensures onward { Onward self.old.admission.list self.new.admission.list }
    {
        let script = match self.preparing.prepare(text, variables) {
            Ok(script) => script,
            Err(Refusal::Memory) => return Err(Refusal::Memory),
            Err(Refusal::Fault(fault)) => return Err(Refusal::Fault(NotPutBack::Faulty(fault))),
        };
        let patience = patience_of(stay, &script);
        let rank = rank_of(&script);
        let is_noted = self.come(ticket.number(), &script)?;
        match self
            .admission
            .restore(ticket, script, patience, batches, rank)
        {
            Ok(()) => Ok(()),
            Err(refusal) => {
                if is_noted {
                    self.prospects.take_back(ticket.number());
                }
                match refusal {
                    Refusal::Memory => Err(Refusal::Memory),
                    Refusal::Fault(fault) => Err(Refusal::Fault(NotPutBack::Refused(fault))),
                }
            }
        }
    }

    /// A script waits no more, since its client takes it back, and will never commit. One that is in a batch can't be
    /// taken back until that is over. At a refusal nothing changes.
    pub fn withdraw(&mut self, ticket: Ticket) -> Result<(), Refusal<NotWithdrawn>>
        ensures ended { OnOk result ((waiter : WaiterSeen)
            → waiter_of self.old.admission.list ticket ≡ Some waiter
            → self.new.admission.list ≡ ending_as ticket Withdrawn false waiter self.old.admission.list) }
        ensures gone { OnOk result (waiter_of self.new.admission.list ticket ≡ None) }
        ensures idle { OnOk result (IsIdle self.old.admission.list ticket) }
        ensures epoch { self.new.admission.epoch ≡ self.old.admission.epoch }
        ensures coming { self.new.admission.coming ≡ self.old.admission.coming }
        ensures feed { self.new.admission.feed ≡ self.old.admission.feed }
        ensures news { self.new.admission.news ≡ self.old.admission.news }
        ensures last { self.new.last ≡ self.old.last }
        ensures err { OnErr result (self.new ≡ self.old) }
        ensures absent { IfErr result (λ refusal. refusal ≡ Fault Absent
            → waiter_of self.old.admission.list ticket ≡ None) }
        ensures in_batch { IfErr result (λ refusal. refusal ≡ Fault InBatch
            → IsInBatch self.old.admission.list ticket ⊎ (contains nat_cmp self.old.admission.coming ticket ≡ true)) }
        ensures onward { Onward self.old.admission.list self.new.admission.list }
    {
        self.admission.withdraw(ticket)?;
        self.prospects.forget(ticket.number());
        Ok(())
    }
}
