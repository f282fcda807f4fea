//! The waiting list.
ghost use Rattle.std.specs.Prelude.{◌≡◌, ◌∷◌, ◌++◌, IsSome, ◌≤◌, ◌<◌, ◌+◌, ◌-◌, ◌^◌, [], ℕ, false, length, true};
ghost use Rattle.std.specs.Prelude.{OnErr, OnOk, IfErr, IfNone, IfOk};
ghost use Rattle.std.specs.Prelude.{IfSome, Some, None};
ghost use Rattle.std.specs.Map.{lookup, remove_entry, set_value};
ghost use Rattle.std.specs.BTreeMap.{insert_entry, is_at};
ghost use Rattle.std.specs.Ordering.{nat_cmp};
ghost use Rattle.std.specs.Option.{option_copied, option_map};
ghost use Rattle.ent_value.specs.declared.refusal.Refusal.TheVariants.{Fault};
ghost use Rattle.ent_waiting.specs.Ended.{ended_of as ended_in, last_but, last_of};
ghost use Rattle.ent_waiting.specs.Queues.{SameQueues, stands_in};
ghost use Rattle.ent_waiting.specs.WaitingList.{AreQueued, IsFull, IsIdle, IsInBatch, IsSubmitted, IsUsed};
ghost use Rattle.ent_waiting.specs.WaitingList.{MayComeBack, Onward, StandsAt, UpdatesAt};
ghost use Rattle.ent_waiting.specs.WaitingList.{admitted, back, back_or_gone, changed, ended_as, ending_as};
ghost use Rattle.ent_waiting.specs.WaitingList.{is_stationed, moved, nobody, waits_idle};
ghost use Rattle.ent_waiting.specs.WaitingList.{waiter_of};
ghost use Rattle.ent_waiting.specs.Waiter.{back_in, is_idle, is_over, newcomer, with_batch, with_place_noted};
ghost use Rattle.ent_waiting.specs.declared.ended.Ending.TheVariants.{Withdrawn};
ghost use Rattle.ent_waiting.specs.declared.queues.Station.{Station as StationSeen};
ghost use Rattle.ent_waiting.specs.declared.waiter.Waiter.{Waiter as WaiterSeen};
ghost use Rattle.ent_waiting.specs.declared.waiting_list.Full.{Full as FullSeen};
ghost use Rattle.ent_waiting.specs.declared.waiter.WaitingPlace.TheVariants.{Queued, Chosen, Resting, Submitted};
ghost use Rattle.ent_waiting.specs.declared.waiting_list.NotRestored.TheVariants.{NoRoom, Used};
ghost use Rattle.ent_waiting.specs.declared.waiting_list.NotWithdrawn.TheVariants.{Absent, InBatch};

use crate::ended::{self, Ended, Ending};
use crate::queues::{self, Queues, Rank, Station};
use crate::ticket::Ticket;
use crate::waiter::{Patience, Submission, Waiter, WaitingPlace, is_over, with_batch};
use ent_tree::Script;
use ent_value::{Refusal, Sequence};
use std::alloc::{AllocError, Global};
use std::collections::{BTreeMap, VecDeque};
use std::marker::Model;

/// As many scripts wait as there may be.
#[derive(Clone, Copy, Debug, PartialEq, Eq)]
pub struct Full;

/// Why a script of an earlier process doesn't come in again.
#[derive(Clone, Copy, Debug, PartialEq, Eq)]
pub enum NotRestored {
    /// The ticket isn't of an earlier process, or one that is no less came in before.
    Used,
    /// As many scripts wait as there may be.
    NoRoom,
}

/// Why a script isn't withdrawn.
#[derive(Clone, Copy, Debug, PartialEq, Eq)]
pub enum NotWithdrawn {
    /// No script waits under the ticket.
    Absent,
    /// It is in a batch that isn't over.
    InBatch,
}

/// How many scripts may wait at once, and of how many that wait no more it is kept how they ended.
#[derive(Clone, Copy, Debug)]
pub struct Limits {
    pub most_waiters: usize,
    pub most_ended: usize,
}

/// Scripts that wait, under their tickets, and how those ended that wait no more.
#[derive(Drop)]
pub struct WaitingList {
    alloc: Global,
    next: u64,
    earlier: u64,
    first: u64,
    waiters: BTreeMap<u64, Waiter>,
    queues: Queues,
    ended: VecDeque<Ended>,
    limits: Limits,
}

impl Model for WaitingList {
    ghost use Rattle.std.specs.Coded.{codes};
    ghost use Rattle.ent_waiting.specs.WaitingList.{WaitingList, IsKept};

    ghost Value = { WaitingList };

    ghost coded = { Prim.hlevel (codes) };

    ghost view = { λ l. record {
      next = l.next;
      earlier = l.earlier;
      first = l.first;
      waiters = l.waiters.entries;
      ended = l.ended.items;
      most_waiters = l.limits.most_waiters;
      most_ended = l.limits.most_ended;
    } };

    ghost invariant = { λ l. IsKept (record {
      next = l.next;
      earlier = l.earlier;
      first = l.first;
      waiters = l.waiters.entries;
      ended = l.ended.items;
      most_waiters = l.limits.most_waiters;
      most_ended = l.limits.most_ended;
    }) l.queues };
}

/// A script comes to those who wait. Where memory runs out nothing changes.
fn admit(
    waiters: &mut BTreeMap<u64, Waiter>,
    queues: &mut Queues,
    ticket: u64,
    waiter: Waiter,
) -> Result<(), AllocError>
    requires absent { lookup (is_at (nat_cmp ticket)) waiters.old.entries ≡ None }
    requires queued { AreQueued waiters.old.entries queues.old }
    ensures ok { OnOk result (waiters.new.entries ≡ insert_entry nat_cmp waiters.old.entries ticket waiter) }
    ensures updates { OnOk result (UpdatesAt ticket (Some waiter) waiters.old.entries waiters.new.entries) }
    ensures kept_queued { AreQueued waiters.new.entries queues.new }
    ensures err { OnErr result (waiters.new.entries ≡ waiters.old.entries) }
{
    let place = waiter.place;
    queues::shift(queues, WaitingPlace::Resting, place, ticket)?;
    match waiters.insert(ticket, waiter) {
        Ok(_) => Ok(()),
        Err(refused) => {
            drop(refused);
            queues::quit(queues, place, ticket);
            Err(AllocError)
        }
    }
}

/// The first ticket from this one on under which a script waits.
fn next_of(waiters: &BTreeMap<u64, Waiter>, from: u64) -> Option<u64>
    ensures waits { IfSome result (λ ticket. IsSome (lookup (is_at (nat_cmp ticket)) waiters.now.entries)) }
    ensures from { IfSome result (λ ticket. from ≤ ticket) }
    ensures least { IfSome result (λ ticket. (other : ℕ)
        → IsSome (lookup (is_at (nat_cmp other)) waiters.now.entries)
        → from ≤ other
        → ticket ≤ other) }
    ensures none { IfNone result ((other : ℕ)
        → from ≤ other
        → lookup (is_at (nat_cmp other)) waiters.now.entries ≡ None) }
{
    let (ticket, _waiter) = waiters.range(from..).next()?;
    Some(*ticket)
}

/// Where the script of a ticket waits.
fn place_of(waiters: &BTreeMap<u64, Waiter>, ticket: u64) -> Option<WaitingPlace>
    ensures { result ≡ option_map (λ waiter. waiter.place) (lookup (is_at (nat_cmp ticket)) waiters.now.entries) }
{
    match waiters.get(&ticket) {
        Some(waiter) => Some(waiter.place),
        None => None,
    }
}

/// The script of a ticket waits at another place, in whichever queue.
fn put_at(waiters: &mut BTreeMap<u64, Waiter>, ticket: u64, place: WaitingPlace)
    ensures changed { (waiter : WaiterSeen)
        → lookup (is_at (nat_cmp ticket)) waiters.old.entries ≡ Some waiter
        → waiters.new.entries
        ≡ set_value (is_at (nat_cmp ticket)) waiters.old.entries (record waiter { place = place }) }
    ensures updates { (waiter : WaiterSeen)
        → lookup (is_at (nat_cmp ticket)) waiters.old.entries ≡ Some waiter
        → UpdatesAt ticket (Some (record waiter { place = place })) waiters.old.entries waiters.new.entries }
{
    if let Some(waiter) = waiters.get_mut(&ticket) {
        waiter.place = place;
    }
}

/// The script of a ticket waits at another place, and goes from queue to queue where the place says so. Where memory
/// runs out nothing changes.
fn move_to(
    waiters: &mut BTreeMap<u64, Waiter>,
    queues: &mut Queues,
    ticket: u64,
    place: WaitingPlace,
) -> Result<(), AllocError>
    requires queued { AreQueued waiters.old.entries queues.old }
    ensures ok { OnOk result ((waiter : WaiterSeen)
        → lookup (is_at (nat_cmp ticket)) waiters.old.entries ≡ Some waiter
        → waiters.new.entries
        ≡ set_value (is_at (nat_cmp ticket)) waiters.old.entries (record waiter { place = place })) }
    ensures updates { OnOk result ((waiter : WaiterSeen)
        → lookup (is_at (nat_cmp ticket)) waiters.old.entries ≡ Some waiter
        → UpdatesAt ticket (Some (record waiter { place = place })) waiters.old.entries waiters.new.entries) }
    ensures absent { OnOk result (lookup (is_at (nat_cmp ticket)) waiters.old.entries ≡ None
        → waiters.new.entries ≡ waiters.old.entries) }
    ensures kept_queued { AreQueued waiters.new.entries queues.new }
    ensures err { OnErr result (waiters.new.entries ≡ waiters.old.entries) }
{
    let Some(old) = place_of(waiters, ticket) else {
        return Ok(());
    };
    queues::shift(queues, old, place, ticket)?;
    put_at(waiters, ticket, place);
    Ok(())
}

/// Notes the transaction that a script became, where its place is one. Where memory runs out nothing changes.
fn note_place(
    waiters: &mut BTreeMap<u64, Waiter>,
    queues: &Queues,
    ticket: u64,
) -> Result<(), AllocError>
    requires queued { AreQueued waiters.old.entries queues.now }
    ensures ok { OnOk result ((waiter : WaiterSeen)
        → lookup (is_at (nat_cmp ticket)) waiters.old.entries ≡ Some waiter
        → waiters.new.entries ≡ set_value (is_at (nat_cmp ticket)) waiters.old.entries (with_place_noted waiter)) }
    ensures updates { OnOk result ((waiter : WaiterSeen)
        → lookup (is_at (nat_cmp ticket)) waiters.old.entries ≡ Some waiter
        → UpdatesAt ticket (Some (with_place_noted waiter)) waiters.old.entries waiters.new.entries) }
    ensures kept_queued { AreQueued waiters.new.entries queues.now }
    ensures err { OnErr result (waiters.new.entries ≡ waiters.old.entries) }
{
    match waiters.get_mut(&ticket) {
        Some(waiter) => {
            waiter.note_place()?;
            Ok(())
        }
        None => Ok(()),
    }
}

/// What is kept of a script that waits again, in the queue of this rank. Where memory runs out nothing changes.
fn write_back(
    waiters: &mut BTreeMap<u64, Waiter>,
    ticket: u64,
    rank: Rank,
    counts: bool,
    alone: bool,
) -> Result<(), AllocError>
    ensures ok { OnOk result ((waiter : WaiterSeen)
        → lookup (is_at (nat_cmp ticket)) waiters.old.entries ≡ Some waiter
        → waiters.new.entries
        ≡ set_value (is_at (nat_cmp ticket)) waiters.old.entries (back_in rank counts alone waiter)) }
    ensures updates { OnOk result ((waiter : WaiterSeen)
        → lookup (is_at (nat_cmp ticket)) waiters.old.entries ≡ Some waiter
        → UpdatesAt ticket (Some (back_in rank counts alone waiter)) waiters.old.entries waiters.new.entries) }
    ensures err { OnErr result (waiters.new.entries ≡ waiters.old.entries) }
{
    match waiters.get_mut(&ticket) {
        Some(waiter) => {
            waiter.come_back(rank, counts, alone)?;
            Ok(())
        }
        None => Ok(()),
    }
}

/// A script of a batch waits again, in the queue of this rank. Where memory runs out nothing changes.
fn come_back(
    waiters: &mut BTreeMap<u64, Waiter>,
    queues: &mut Queues,
    ticket: u64,
    rank: Rank,
    counts: bool,
    alone: bool,
) -> Result<(), AllocError>
    requires queued { AreQueued waiters.old.entries queues.old }
    requires there { IsSome (lookup (is_at (nat_cmp ticket)) waiters.old.entries) }
    requires in_batch { (station : StationSeen)
        → is_stationed station (lookup (is_at (nat_cmp ticket)) waiters.old.entries) ≡ stands_in station Chosen }
    ensures ok { OnOk result ((waiter : WaiterSeen)
        → lookup (is_at (nat_cmp ticket)) waiters.old.entries ≡ Some waiter
        → waiters.new.entries
        ≡ set_value (is_at (nat_cmp ticket)) waiters.old.entries (back_in rank counts alone waiter)) }
    ensures updates { OnOk result ((waiter : WaiterSeen)
        → lookup (is_at (nat_cmp ticket)) waiters.old.entries ≡ Some waiter
        → UpdatesAt ticket (Some (back_in rank counts alone waiter)) waiters.old.entries waiters.new.entries) }
    ensures kept_queued { AreQueued waiters.new.entries queues.new }
    ensures err { OnErr result (waiters.new.entries ≡ waiters.old.entries) }
{
    let queue = WaitingPlace::Queued(rank);
    queues::enter(queues, queue, ticket)?;
    match write_back(waiters, ticket, rank, counts, alone) {
        Ok(()) => {
            queues::quit(queues, WaitingPlace::Chosen, ticket);
            Ok(())
        }
        Err(AllocError) => {
            queues::quit(queues, queue, ticket);
            Err(AllocError)
        }
    }
}

/// A script waits no more.
fn take_out(waiters: &mut BTreeMap<u64, Waiter>, queues: &mut Queues, ticket: u64) -> Waiter
    requires queued { AreQueued waiters.old.entries queues.old }
    requires there { IsSome (lookup (is_at (nat_cmp ticket)) waiters.old.entries) }
    ensures waiter { lookup (is_at (nat_cmp ticket)) waiters.old.entries ≡ Some result }
    ensures removed { waiters.new.entries ≡ remove_entry (is_at (nat_cmp ticket)) waiters.old.entries }
    ensures updates { UpdatesAt ticket None waiters.old.entries waiters.new.entries }
    ensures kept_queued { AreQueued waiters.new.entries queues.new }
{
    let Some(waiter) = waiters.remove(&ticket) else {
        unreachable!();
    };
    queues::quit(queues, waiter.place, ticket);
    waiter
}

/// A script waits no more, and how it ended is kept until enough others ended behind it. Where memory runs out nothing
/// changes.
fn finish(
    waiters: &mut BTreeMap<u64, Waiter>,
    queues: &mut Queues,
    ended: &mut VecDeque<Ended>,
    most: usize,
    ticket: u64,
    ending: Ending,
    counts: bool,
) -> Result<(), AllocError>
    requires queued { AreQueued waiters.old.entries queues.old }
    requires there { IsSome (lookup (is_at (nat_cmp ticket)) waiters.old.entries) }
    requires limit { length ended.old.items ≤ most }
    ensures waiters { OnOk result (waiters.new.entries ≡ remove_entry (is_at (nat_cmp ticket)) waiters.old.entries) }
    ensures updates { OnOk result (UpdatesAt ticket None waiters.old.entries waiters.new.entries) }
    ensures ended { OnOk result ((waiter : WaiterSeen)
        → lookup (is_at (nat_cmp ticket)) waiters.old.entries ≡ Some waiter
        → ended.new.items ≡ last_of most (ended.old.items ++ ended_as ticket ending counts waiter ∷ [])) }
    ensures kept_queued { AreQueued waiters.new.entries queues.new }
    ensures err_waiters { OnErr result (waiters.new.entries ≡ waiters.old.entries) }
    ensures err_ended { OnErr result (ended.new.items ≡ ended.old.items) }
{
    ended.reserve(1)?;
    note_place(waiters, queues, ticket)?;
    let waiter = take_out(waiters, queues, ticket);
    ended::keep(
        ended,
        most,
        waiter.ended(Ticket::new(ticket), ending, counts),
    );
    Ok(())
}

impl WaitingList {
    /// Nobody waits yet. The first script that is put gets this ticket; those below it are of an earlier process.
    pub fn new(alloc: Global, next: Ticket, limits: Limits) -> Self
        ensures { result ≡ nobody next limits.most_waiters limits.most_ended }
    {
        WaitingList {
            alloc,
            next: next.number(),
            earlier: 0,
            first: next.number(),
            waiters: BTreeMap::new(alloc),
            queues: queues::new(alloc),
            ended: VecDeque::new(alloc),
            limits,
        }
    }

    /// Takes a script in, which waits in the queue of this rank, and gives it the next ticket. At a refusal nothing
    /// changes.
    pub fn put(
        &mut self,
        script: Script,
        patience: Patience,
        rank: Rank,
    ) -> Result<Ticket, Refusal<Full>>
        ensures ticket { IfOk result (λ ticket. ticket ≡ self.old.next) }
        ensures ok { OnOk result (let waiter = newcomer script patience 0 rank in
            self.new ≡ record (admitted self.old.next waiter self.old) { next = self.old.next + 1 }) }
        ensures err { OnErr result (self.new ≡ self.old) }
        ensures updates { OnOk result (UpdatesAt self.old.next (Some (newcomer script patience 0 rank))
            self.old.waiters self.new.waiters) }
        ensures full { IfErr result (λ refusal. (fault : FullSeen) → refusal ≡ Fault fault → IsFull self.old) }
        ensures room { OnOk result (length self.old.waiters < self.old.most_waiters) }
        ensures onward { Onward self.old self.new }
    {
        if self.waiters.len() >= self.limits.most_waiters || self.next == u64::MAX {
            return Err(Refusal::Fault(Full));
        }
        let ticket = self.next;
        let waiter = Waiter::new(self.alloc, script, patience, 0, rank);
        admit(&mut self.waiters, &mut self.queues, ticket, waiter)?;
        self.next = ticket + 1;
        Ok(Ticket::new(ticket))
    }

    /// The ticket that comes next. Nobody waits under it.
    pub fn next(&self) -> Ticket
        ensures next { result ≡ self.now.next }
        ensures unused { waiter_of self.now result ≡ None }
    {
        Ticket::new(self.next)
    }

    /// Why no script of an earlier process comes in under a ticket; nothing where one may.
    pub fn not_restored(&self, ticket: Ticket) -> Option<NotRestored>
        ensures may { IfNone result (MayComeBack self.now ticket) }
        ensures unused { IfNone result (¬ IsUsed self.now ticket) }
        ensures absent { IfNone result (waiter_of self.now ticket ≡ None) }
        ensures full { result ≡ Some NoRoom → IsFull self.now }
        ensures used { result ≡ Some Used → ¬ MayComeBack self.now ticket }
    {
        if ticket.number() < self.earlier || ticket.number() >= self.first {
            Some(NotRestored::Used)
        } else if self.waiters.len() >= self.limits.most_waiters {
            Some(NotRestored::NoRoom)
        } else {
            None
        }
    }

    /// Takes a script in again that waited in an earlier process, under its ticket, after so many batches. Those of an
    /// earlier process come in the order of their tickets. At a refusal nothing changes.
    pub fn restore(
        &mut self,
        ticket: Ticket,
        script: Script,
        patience: Patience,
        batches: u64,
        rank: Rank,
    ) -> Result<(), Refusal<NotRestored>>
        ensures ok { OnOk result (let waiter = newcomer script patience batches rank in
            self.new ≡ record (admitted ticket waiter self.old) { earlier = ticket + 1 }) }
        ensures updates { OnOk result (UpdatesAt ticket (Some (newcomer script patience batches rank))
            self.old.waiters self.new.waiters) }
        ensures unused { OnOk result (¬ IsUsed self.old ticket) }
        ensures err { OnErr result (self.new ≡ self.old) }
        ensures full { IfErr result (λ refusal. refusal ≡ Fault NoRoom → IsFull self.old) }
        ensures used { IfErr result (λ refusal. refusal ≡ Fault Used → ¬ MayComeBack self.old ticket) }
        ensures onward { Onward self.old self.new }
    {
        if let Some(fault) = self.not_restored(ticket) {
            return Err(Refusal::Fault(fault));
        }
        let number = ticket.number();
        let waiter = Waiter::new(self.alloc, script, patience, batches, rank);
        admit(&mut self.waiters, &mut self.queues, number, waiter)?;
        self.earlier = number + 1;
        Ok(())
    }

    /// A script that waits and is in no batch comes into the queue of this rank. Where memory runs out nothing changes.
    pub fn queue(&mut self, ticket: Ticket, rank: Rank) -> Result<(), AllocError>
        ensures ok { OnOk result (self.new ≡ moved ticket (Queued rank) self.old) }
        ensures updates { OnOk result ((waiter : WaiterSeen)
            → waiter_of self.old ticket ≡ Some waiter
            → is_idle waiter.place ≡ true
            → UpdatesAt ticket (Some (record waiter { place = Queued rank })) self.old.waiters self.new.waiters) }
        ensures err { OnErr result (self.new ≡ self.old) }
        ensures onward { Onward self.old self.new }
    {
        self.put_idle(ticket, WaitingPlace::Queued(rank))
    }

    /// A script that waits and is in no batch leaves its queue, and comes into none. Where memory runs out nothing
    /// changes.
    pub fn rest(&mut self, ticket: Ticket) -> Result<(), AllocError>
        ensures ok { OnOk result (self.new ≡ moved ticket Resting self.old) }
        ensures updates { OnOk result ((waiter : WaiterSeen)
            → waiter_of self.old ticket ≡ Some waiter
            → is_idle waiter.place ≡ true
            → UpdatesAt ticket (Some (record waiter { place = Resting })) self.old.waiters self.new.waiters) }
        ensures err { OnErr result (self.new ≡ self.old) }
        ensures onward { Onward self.old self.new }
    {
        self.put_idle(ticket, WaitingPlace::Resting)
    }

    /// A script that waits and is in no batch comes into the next one. Where memory runs out nothing changes.
    pub fn choose(&mut self, ticket: Ticket) -> Result<(), AllocError>
        ensures ok { OnOk result (self.new ≡ moved ticket Chosen self.old) }
        ensures updates { OnOk result ((waiter : WaiterSeen)
            → waiter_of self.old ticket ≡ Some waiter
            → is_idle waiter.place ≡ true
            → UpdatesAt ticket (Some (record waiter { place = Chosen })) self.old.waiters self.new.waiters) }
        ensures err { OnErr result (self.new ≡ self.old) }
        ensures onward { Onward self.old self.new }
    {
        self.put_idle(ticket, WaitingPlace::Chosen)
    }

    /// A script that waits and is in no batch comes to another place.
    fn put_idle(&mut self, ticket: Ticket, place: WaitingPlace) -> Result<(), AllocError>
        ensures ok { OnOk result (self.new ≡ moved ticket place self.old) }
        ensures updates { OnOk result ((waiter : WaiterSeen)
            → waiter_of self.old ticket ≡ Some waiter
            → is_idle waiter.place ≡ true
            → UpdatesAt ticket (Some (record waiter { place = place })) self.old.waiters self.new.waiters) }
        ensures err { OnErr result (self.new ≡ self.old) }
        ensures onward { Onward self.old self.new }
    {
        if !self.waits_idle(ticket) {
            return Ok(());
        }
        move_to(&mut self.waiters, &mut self.queues, ticket.number(), place)?;
        Ok(())
    }

    /// A script waits no more, since its client takes it back. One that is in a batch can't be withdrawn until that is
    /// over. At a refusal nothing changes.
    pub fn withdraw(&mut self, ticket: Ticket) -> Result<(), Refusal<NotWithdrawn>>
        ensures idle { OnOk result (IsIdle self.old ticket) }
        ensures ok { OnOk result ((waiter : WaiterSeen)
            → waiter_of self.old ticket ≡ Some waiter
            → self.new ≡ ending_as ticket Withdrawn false waiter self.old) }
        ensures updates { OnOk result (UpdatesAt ticket None self.old.waiters self.new.waiters) }
        ensures err { OnErr result (self.new ≡ self.old) }
        ensures absent { IfErr result (λ refusal. refusal ≡ Fault Absent → waiter_of self.old ticket ≡ None) }
        ensures in_batch { IfErr result (λ refusal. refusal ≡ Fault InBatch → IsInBatch self.old ticket) }
        ensures onward { Onward self.old self.new }
    {
        match place_of(&self.waiters, ticket.number()) {
            Some(place) => {
                if !place.is_idle() {
                    return Err(Refusal::Fault(NotWithdrawn::InBatch));
                }
                self.finish(ticket, Ending::Withdrawn, false)?;
                Ok(())
            }
            None => Err(Refusal::Fault(NotWithdrawn::Absent)),
        }
    }

    /// A script that was chosen for a batch becomes a transaction.
    pub fn submitted(&mut self, ticket: Ticket, submission: Submission)
        requires chosen { StandsAt self.old ticket Chosen }
        ensures ok { (waiter : WaiterSeen)
            → waiter_of self.old ticket ≡ Some waiter
            → self.new ≡ changed ticket (record waiter { place = Submitted submission }) self.old }
        ensures updates { (waiter : WaiterSeen)
            → waiter_of self.old ticket ≡ Some waiter
            → UpdatesAt ticket (Some (record waiter { place = Submitted submission }))
            self.old.waiters self.new.waiters }
        ensures onward { Onward self.old self.new }
    {
        put_at(
            &mut self.waiters,
            ticket.number(),
            WaitingPlace::Submitted(submission),
        );
    }

    /// A script of a batch that is over ended. Where memory runs out nothing changes.
    pub fn end(&mut self, ticket: Ticket, ending: Ending) -> Result<(), AllocError>
        requires submitted { IsSubmitted self.old ticket }
        ensures ok { OnOk result ((waiter : WaiterSeen)
            → waiter_of self.old ticket ≡ Some waiter
            → self.new ≡ ending_as ticket ending true waiter self.old) }
        ensures updates { OnOk result (UpdatesAt ticket None self.old.waiters self.new.waiters) }
        ensures err { OnErr result (self.new ≡ self.old) }
        ensures onward { Onward self.old self.new }
    {
        self.finish(ticket, ending, true)
    }

    /// A script of a batch that is over waits again, in the queue of this rank; or it gives up, where its patience is
    /// used up by then. The caller says whether the batch counts against the patience, and whether the script's meeting
    /// is tried by itself next. Where memory runs out nothing changes.
    pub fn wait_again(
        &mut self,
        ticket: Ticket,
        rank: Rank,
        counts: bool,
        alone: bool,
    ) -> Result<(), AllocError>
        requires submitted { IsSubmitted self.old ticket }
        ensures ok { OnOk result ((waiter : WaiterSeen)
            → waiter_of self.old ticket ≡ Some waiter
            → self.new ≡ back ticket rank counts alone waiter self.old) }
        ensures updates { OnOk result ((waiter : WaiterSeen)
            → waiter_of self.old ticket ≡ Some waiter
            → UpdatesAt ticket (back_or_gone rank counts alone waiter) self.old.waiters self.new.waiters) }
        ensures err { OnErr result (self.new ≡ self.old) }
        ensures onward { Onward self.old self.new }
    {
        if self.gives_up(ticket, counts) {
            self.finish(ticket, Ending::GaveUp, counts)?;
            return Ok(());
        }
        self.come_back(ticket, rank, counts, alone)?;
        Ok(())
    }

    /// Whether the patience of a script is used up after one batch more, which counts or doesn't.
    fn gives_up(&self, ticket: Ticket, counts: bool) -> bool
        ensures { (waiter : WaiterSeen)
            → waiter_of self.now ticket ≡ Some waiter
            → result ≡ is_over waiter.patience (with_batch counts waiter.batches) }
    {
        match self.waiters.get(&ticket.number()) {
            Some(waiter) => is_over(waiter.patience, with_batch(waiter.batches, counts)),
            None => false,
        }
    }

    /// A script of a batch that is over waits again.
    fn come_back(
        &mut self,
        ticket: Ticket,
        rank: Rank,
        counts: bool,
        alone: bool,
    ) -> Result<(), AllocError>
        requires submitted { IsSubmitted self.old ticket }
        ensures ok { OnOk result ((waiter : WaiterSeen)
            → waiter_of self.old ticket ≡ Some waiter
            → self.new ≡ changed ticket (back_in rank counts alone waiter) self.old) }
        ensures updates { OnOk result ((waiter : WaiterSeen)
            → waiter_of self.old ticket ≡ Some waiter
            → UpdatesAt ticket (Some (back_in rank counts alone waiter)) self.old.waiters self.new.waiters) }
        ensures err { OnErr result (self.new ≡ self.old) }
        ensures onward { Onward self.old self.new }
    {
        come_back(
            &mut self.waiters,
            &mut self.queues,
            ticket.number(),
            rank,
            counts,
            alone,
        )?;
        Ok(())
    }

    /// A script that waits ends.
    fn finish(&mut self, ticket: Ticket, ending: Ending, counts: bool) -> Result<(), AllocError>
        requires there { IsSome (waiter_of self.old ticket) }
        ensures ok { OnOk result ((waiter : WaiterSeen)
            → waiter_of self.old ticket ≡ Some waiter
            → self.new ≡ ending_as ticket ending counts waiter self.old) }
        ensures updates { OnOk result (UpdatesAt ticket None self.old.waiters self.new.waiters) }
        ensures err { OnErr result (self.new ≡ self.old) }
        ensures onward { Onward self.old self.new }
    {
        let most = self.limits.most_ended;
        finish(
            &mut self.waiters,
            &mut self.queues,
            &mut self.ended,
            most,
            ticket.number(),
            ending,
            counts,
        )?;
        Ok(())
    }

    /// Whether a script waits under a ticket, and is in no batch.
    pub fn waits_idle(&self, ticket: Ticket) -> bool
        ensures { result ≡ waits_idle (waiter_of self.now ticket) }
    {
        match place_of(&self.waiters, ticket.number()) {
            Some(place) => place.is_idle(),
            None => false,
        }
    }

    /// The script that waits under a ticket.
    pub fn waiter(&self, ticket: Ticket) -> Option<&Waiter>
        ensures { option_copied result ≡ waiter_of self.now ticket }
    {
        self.waiters.get(&ticket.number())
    }

    /// How the script of a ticket ended, where that is kept.
    pub fn ended(&self, ticket: Ticket) -> Option<&Ended>
        ensures { option_copied result ≡ ended_in ticket self.now.ended }
    {
        ended::ended_of(&self.ended, ticket.number())
    }

    /// An ended ticket, counted back from the last one, which is number 0; None if it isn't kept. A ticket ends at most
    /// once; so who keeps the one that ended last learns with it which ended since.
    pub fn ended_back(&self, back: usize) -> Option<&Ended>
        ensures { option_copied result ≡ last_but back self.now.ended }
    {
        ended::last_but(&self.ended, back)
    }

    /// The first ticket from this one on under which a script waits.
    pub fn next_waiter(&self, from: Ticket) -> Option<Ticket>
        ensures waits { IfSome result (λ ticket. IsSome (waiter_of self.now ticket)) }
        ensures from { IfSome result (λ ticket. from ≤ ticket) }
        ensures least { IfSome result (λ ticket. (other : ℕ)
            → IsSome (waiter_of self.now other)
            → from ≤ other
            → ticket ≤ other) }
        ensures none { IfNone result ((other : ℕ) → from ≤ other → waiter_of self.now other ≡ None) }
    {
        match next_of(&self.waiters, from.number()) {
            Some(ticket) => Some(Ticket::new(ticket)),
            None => None,
        }
    }

    /// How many scripts wait.
    pub fn waiting(&self) -> usize
        ensures { result ≡ length self.now.waiters }
    {
        self.waiters.len()
    }

    /// The first ticket from this one on that is at a station.
    pub fn first_from(&self, station: Station, from: Ticket) -> Option<Ticket>
        ensures there { IfSome result (λ ticket. is_stationed station (waiter_of self.now ticket) ≡ true) }
        ensures from { IfSome result (λ ticket. from ≤ ticket) }
        ensures least { IfSome result (λ ticket. (other : ℕ)
            → is_stationed station (waiter_of self.now other) ≡ true
            → from ≤ other
            → ticket ≤ other) }
        ensures none { IfNone result ((other : ℕ)
            → from ≤ other
            → is_stationed station (waiter_of self.now other) ≡ false) }
    {
        match queues::first_from(&self.queues, station, from.number()) {
            Some(ticket) => Some(Ticket::new(ticket)),
            None => None,
        }
    }
}
