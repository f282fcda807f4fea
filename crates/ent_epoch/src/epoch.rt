//! Epochs.
ghost use Rattle.std.specs.Prelude.{◌≡◌, ◌↔◌, ◌+◌, ◌<◌, ◌≤◌, ◌^◌, ℕ, IfErr, IfOk, IsSome, IsTrue, OnErr, OnOk, Some};
ghost use Rattle.std.specs.Prelude.{false, length};
ghost use Rattle.std.specs.Option.{option_copied};
ghost use Rattle.ent_book.specs.Tables.{book_seen};
ghost use Rattle.ent_sched.specs.Passed.{NotDone, resolved_forms};
ghost use Rattle.ent_value.specs.Refusal.{Gives};
ghost use Rattle.ent_value.specs.declared.refusal.Refusal.TheVariants.{Fault};
ghost use Rattle.ent_form.specs.OpeningFault.{opening_fault, unless};
ghost use Rattle.ent_group.specs.declared.members.TheConstants.{MOST_MEMBERS};
ghost use Rattle.ent_form.specs.declared.fault.FormFault.{FormFault as FormFaultSeen};
ghost use Rattle.ent_protocol.specs.Event.{Full as IsFull, Faulty as IsFaulty, Submit, Submitted};
ghost use Rattle.ent_protocol.specs.Lookup.{standing};
ghost use Rattle.ent_protocol.specs.Reached.{CanClose, book_of, settled};
ghost use Rattle.ent_epoch.specs.Telling.{KeepsUp, Telling as TellingSeen, groups_due, telling_at};
ghost use Rattle.ent_protocol.specs.Step.{Step};
ghost use Rattle.ent_renewal.specs.Renewal.{GoesOn, IsRenewed, rows_together};
ghost use Rattle.ent_sched.specs.Onward.{LeadsOn};
ghost use Rattle.ent_semantics.specs.Book.{IsLegal};
ghost use Rattle.ent_semantics.specs.Serial.{numbered};
ghost use Rattle.ent_epoch.specs.Epoch.{AddsOne, Publishes, Takes, begun, core_in, fate_at, for_one_run, carried_over};
ghost use Rattle.ent_epoch.specs.OneRun.{AreForOneRun, MakesRun};
ghost use Rattle.ent_epoch.specs.Told.{GoesOnUntold};
ghost use Rattle.ent_epoch.specs.declared.epoch.NotSubmitted.TheVariants.{Full, Faulty};
ghost use Rattle.ent_epoch.specs.declared.turn.NotTurned.TheVariants as not_turned;
ghost use Rattle.ent_tree.specs.declared.limits.TheConstants.{MOST_OPENING_ROWS};

use crate::law::journals_go_on;
use crate::one_run::run_to_end;
use crate::script::for_one_run;
use crate::turn::{NotTurned, can_close, exchange, next_core};
use crate::{Telling, entries_have_tickets, tellings_keep_up, told_tables_are_settled};
use ent_feed::{Feed, NoNumber};
use ent_form::FormFault;
use ent_group::Tx;
use ent_renewal::{FinishedBook, TooManyRows};
use ent_sched::{Core, NotClosed, NotDone, Reply, Standing, resolved_runs_are_legal};
use ent_semantics::{Fate, element};
use ent_tree::{Opening, Script};
use ent_value::{Name, Refusal};
use ent_waiting::{Submission, Ticket};
use std::alloc::{AllocError, Global};
use std::marker::Model;

/// Why an epoch doesn't take a script.
#[derive(Clone, Copy, Debug, PartialEq, Eq)]
pub enum NotSubmitted {
    /// As many scripts as a core takes were submitted to it.
    Full,
    /// The script has this fault of form.
    Faulty(FormFault),
}

/// A core, the ticket of each of its transactions, and how far its commits are told. Contracts see its number, the
/// core's state, the tickets by transaction, and what is told and noted.
#[derive(Drop)]
pub struct Epoch {
    number: u64,
    core: Option<Core>,
    tickets: Vec<Ticket>,
    telling: Telling,
}

impl Model for Epoch {
    ghost use Rattle.std.specs.Coded.{codes};
    ghost use Rattle.std.specs.Prelude.{IsSome};
    ghost use Rattle.ent_rel.specs.Relation.{coded_rows};
    ghost use Rattle.ent_epoch.specs.Epoch.{Epoch, IsKept, core_in};

    ghost Value = { Epoch };

    ghost coded = { Prim.hlevel (codes, coded_rows) };

    ghost view = { λ e. record {
      number = e.number;
      core = core_in e.core;
      tickets = e.tickets.items;
      telling = e.telling;
    } };

    ghost invariant = { λ e. IsSome e.core
        × IsKept (record {
          number = e.number;
          core = core_in e.core;
          tickets = e.tickets.items;
          telling = e.telling;
        }) };
}

/// An epoch that isn't closed, as it was, and why.
#[derive(Drop)]
pub struct UnclosedEpoch {
    pub epoch: Epoch,
    pub refusal: Refusal<NotDone>,
}

/// The core of an epoch.
fn core_of(core: &Option<Core>) -> &Core
    requires { IsSome core.now }
    ensures { core.now ≡ Some result.now }
{
    match core {
        Some(core) => core,
        None => unreachable!(),
    }
}

/// All that happened to a core is told.
fn telling_of(alloc: Global, core: &Core) -> Result<Telling, AllocError>
    ensures at { IfOk result (λ telling. telling ≡ telling_at core.now) }
    ensures keeps_up { IfOk result (λ telling. KeepsUp telling core.now) }
{
    tellings_keep_up();
    core.is_reached();
    Telling::of(alloc, core)
}

/// Makes one run of the core of an epoch, to its end. Where memory runs out, what was done stands. Its commits are
/// noted.
fn run_in(alloc: Global, core: &mut Option<Core>, telling: &mut Telling) -> Result<(), AllocError>
    requires there { IsSome core.old }
    requires once { AreForOneRun (core_in core.old) }
    requires keeps_up { KeepsUp telling.old (core_in core.old) }
    ensures there { IsSome core.new }
    ensures ok { OnOk result (MakesRun (core_in core.old) (core_in core.new)) }
    ensures kept { AreForOneRun (core_in core.new) }
    ensures opening { (core_in core.new).opening ≡ (core_in core.old).opening }
    ensures submitted { (core_in core.new).submitted ≡ (core_in core.old).submitted }
    ensures err { OnErr result ((count : ℕ) × LeadsOn resolved_forms count (core_in core.old) (core_in core.new)) }
    ensures keeps_up { KeepsUp telling.new (core_in core.new) }
    ensures notes { telling.new ≡ record telling.old { notes = telling.new.notes } }
{
    let Some(open) = core.take() else {
        unreachable!();
    };
    match run_to_end(alloc, open, telling) {
        Ok(new) => {
            *core = Some(new);
            Ok(())
        }
        Err(refused) => {
            *core = Some(refused.value);
            Err(AllocError)
        }
    }
}

/// Submits a script to a core.
fn submit_to(core: &mut Core, script: Script) -> Result<Tx, Refusal<NotSubmitted>>
    ensures ok { IfOk result (λ tx. Step resolved_forms core.old (Submit script) (Submitted tx) core.new) }
    ensures err { OnErr result (core.new ≡ core.old) }
    ensures full { IfErr result (λ refusal. refusal ≡ Fault Full
        → Step resolved_forms core.old (Submit script) (IsFull script) core.old) }
    ensures faulty { IfErr result (λ refusal. (fault : FormFaultSeen) → refusal ≡ Fault (Faulty fault)
        → Step resolved_forms core.old (Submit script) (IsFaulty script fault) core.old) }
{
    match core.submit(script)? {
        Reply::Submitted(tx) => Ok(tx),
        Reply::Full(script) => {
            drop(script);
            Err(Refusal::Fault(NotSubmitted::Full))
        }
        Reply::Faulty(script, fault) => {
            drop(script);
            Err(Refusal::Fault(NotSubmitted::Faulty(fault)))
        }
        // No other reply is made to a submit.
        other => {
            drop(other);
            Err(Refusal::Memory)
        }
    }
}

/// Submits a script that asks for one run, where no run is on and one has room for one more.
#[tactic(auto, using(crate::proofs::Tries::submitted_kept, crate::proofs::Tries::submitted_counted, crate::proofs::Tries::submitted_next, crate::proofs::Tries::submitted_adds))]
fn submit_once(core: &mut Core, script: Script) -> Result<Tx, Refusal<NotSubmitted>>
    requires once { AreForOneRun core.old }
    requires idle { core.old.running ≡ false }
    requires room { length core.old.dormant < MOST_MEMBERS }
    requires within { script.within ≤ 1 }
    ensures kept { AreForOneRun core.new }
    ensures adds { OnOk result (AddsOne core.old core.new) }
    ensures next { IfOk result (λ tx. tx ≡ length core.old.submitted + 1) }
    ensures ok { IfOk result (λ tx. Step resolved_forms core.old (Submit script) (Submitted tx) core.new) }
    ensures err { OnErr result (core.new ≡ core.old) }
    ensures full { IfErr result (λ refusal. refusal ≡ Fault Full
        → Step resolved_forms core.old (Submit script) (IsFull script) core.old) }
    ensures faulty { IfErr result (λ refusal. (fault : FormFaultSeen) → refusal ≡ Fault (Faulty fault)
        → Step resolved_forms core.old (Submit script) (IsFaulty script fault) core.old) }
    ensures unheard { (telling : TellingSeen) → KeepsUp telling core.old → KeepsUp telling core.new }
{
    tellings_keep_up();
    let tx = submit_to(core, script)?;
    Ok(tx)
}

/// Submits a script that asks for one run to the core of an epoch, where no run is on and one has room for one more.
fn submit_in(core: &mut Option<Core>, script: Script) -> Result<Tx, Refusal<NotSubmitted>>
    requires there { IsSome core.old }
    requires once { AreForOneRun (core_in core.old) }
    requires idle { (core_in core.old).running ≡ false }
    requires room { length (core_in core.old).dormant < MOST_MEMBERS }
    requires within { script.within ≤ 1 }
    ensures there { IsSome core.new }
    ensures ok { IfOk result (λ tx.
        Step resolved_forms (core_in core.old) (Submit script) (Submitted tx) (core_in core.new)) }
    ensures kept { AreForOneRun (core_in core.new) }
    ensures adds { OnOk result (AddsOne (core_in core.old) (core_in core.new)) }
    ensures next { IfOk result (λ tx. tx ≡ length (core_in core.old).submitted + 1) }
    ensures err { OnErr result (core_in core.new ≡ core_in core.old) }
    ensures full { IfErr result (λ refusal. refusal ≡ Fault Full
        → Step resolved_forms (core_in core.old) (Submit script) (IsFull script) (core_in core.old)) }
    ensures faulty { IfErr result (λ refusal. (fault : FormFaultSeen) → refusal ≡ Fault (Faulty fault)
        → Step resolved_forms (core_in core.old) (Submit script) (IsFaulty script fault) (core_in core.old)) }
    ensures unheard { (telling : TellingSeen)
        → KeepsUp telling (core_in core.old)
        → KeepsUp telling (core_in core.new) }
{
    match core {
        Some(core) => submit_once(core, script),
        None => unreachable!(),
    }
}

impl Epoch {
    /// An epoch of this number over an opening, to which nothing is submitted; or the opening's first fault of form.
    pub fn open(alloc: Global, number: u64, opening: Opening) -> Result<Self, Refusal<FormFault>>
        ensures { Gives (λ epoch. epoch) result (unless (opening_fault opening) (begun number opening)) }
    {
        let core = Core::open(alloc, opening)?;
        let telling = telling_of(alloc, &core)?;
        Ok(Epoch {
            number,
            core: Some(core),
            tickets: Vec::new(alloc),
            telling,
        })
    }

    /// Takes a copy of a script of a ticket in, which asks for one run. At a refusal nothing changes.
    pub fn submit(
        &mut self,
        alloc: Global,
        ticket: Ticket,
        script: &Script,
    ) -> Result<Submission, Refusal<NotSubmitted>>
        requires idle { self.old.core.running ≡ false }
        requires room { length self.old.core.dormant < MOST_MEMBERS }
        ensures ok { IfOk result (λ submission. Takes self.old ticket script.now submission self.new) }
        ensures adds { OnOk result (AddsOne self.old.core self.new.core) }
        ensures next { IfOk result (λ submission. submission.tx ≡ length self.old.tickets + 1) }
        ensures err { OnErr result (self.new ≡ self.old) }
        ensures full { IfErr result (λ refusal. refusal ≡ Fault Full
            → let once = for_one_run script.now in
            Step resolved_forms self.old.core (Submit once) (IsFull once) self.old.core) }
        ensures faulty { IfErr result (λ refusal. (fault : FormFaultSeen) → refusal ≡ Fault (Faulty fault)
            → let once = for_one_run script.now in
            Step resolved_forms self.old.core (Submit once) (IsFaulty once fault) self.old.core) }
    {
        let once = for_one_run(alloc, script)?;
        self.tickets.reserve(1)?;
        let tx = submit_in(&mut self.core, once)?;
        self.tickets.push_reserved(ticket);
        Ok(Submission {
            epoch: self.number,
            tx,
        })
    }

    /// Makes one run of those who were submitted since the last one, to its end: then no run is on, and nobody waits
    /// for another. Where memory runs out, what was done stands, and the call may be made again.
    pub fn run(&mut self, alloc: Global) -> Result<(), AllocError>
        ensures ok { OnOk result (MakesRun self.old.core self.new.core) }
        ensures closes { OnOk result (CanClose self.new.core) }
        ensures err { OnErr result ((count : ℕ) × LeadsOn resolved_forms count self.old.core self.new.core) }
        ensures opening { self.new.core.opening ≡ self.old.core.opening }
        ensures same { self.new ≡ record self.old { core = self.new.core; telling = self.new.telling } }
        ensures notes { self.new.telling ≡ record self.old.telling { notes = self.new.telling.notes } }
        ensures goes_on { GoesOnUntold self.old self.new }
    {
        journals_go_on();
        run_in(alloc, &mut self.core, &mut self.telling)
    }

    /// Puts groups behind those of a feed that tell of all that was committed since the last call of this, or since the
    /// epoch began: one for each commit, or one for all of them where memory ran out while they were noted. At a
    /// refusal, and where memory runs out, nothing changes.
    pub fn publish(&mut self, alloc: Global, feed: &mut Feed) -> Result<(), Refusal<NoNumber>>
        ensures ok { OnOk result (Publishes self.old feed.old feed.new self.new) }
        ensures err { OnErr result (self.new ≡ self.old) }
        ensures err_feed { OnErr result (feed.new ≡ feed.old) }
        ensures no_number { IfErr result (λ refusal. refusal ≡ Fault (record {})
            → 2 ^ 64 ≤ feed.old.next + groups_due self.old.telling) }
    {
        entries_have_tickets();
        let core = core_of(&self.core);
        core.is_reached();
        let groups = self.telling.groups(
            alloc,
            feed.next(),
            self.number,
            self.tickets.as_slice(),
            core,
        )?;
        let telling = telling_of(alloc, core)?;
        feed.append(groups)?;
        self.telling = telling;
        Ok(())
    }

    /// Whether all that was committed is told.
    pub fn is_told(&self) -> bool
        ensures told { IsTrue result ↔ (self.now.telling.entries ≡ length self.now.core.journal) }
        ensures tables { IsTrue result → self.now.telling.tables ≡ settled self.now.core }
    {
        told_tables_are_settled();
        let core = core_of(&self.core);
        core.is_reached();
        self.telling.entries() == core.journal().len()
    }

    /// A law, which does nothing: what is told and noted keeps up with the core.
    pub fn keeps_up(&self)
        ensures { KeepsUp self.now.telling self.now.core }
    {
        let _number = self.number;
    }

    /// The number of the epoch.
    pub fn number(&self) -> u64
        ensures { result ≡ self.now.number }
    {
        self.number
    }

    /// Whether no run is on, and nobody waits for one.
    pub fn is_over(&self) -> bool
        ensures { IsTrue result ↔ CanClose self.now.core }
    {
        can_close(self.core())
    }

    /// How many scripts were submitted.
    pub fn submitted(&self) -> usize
        ensures submitted { result ≡ length self.now.core.submitted }
        ensures tickets { result ≡ length self.now.tickets }
    {
        self.tickets.len()
    }

    /// Whose a transaction is.
    pub fn ticket(&self, tx: Tx) -> Option<Ticket>
        ensures { result ≡ numbered self.now.tickets tx }
    {
        element(self.tickets.as_slice(), tx).copied()
    }

    /// The core, for its look-ups.
    pub fn core(&self) -> &Core
        ensures { result.now ≡ self.now.core }
    {
        core_of(&self.core)
    }

    /// A law, which does nothing: the book of the epoch is legal, at all times.
    pub fn is_legal(&self)
        ensures { IsLegal (book_of self.now.core) }
    {
        resolved_runs_are_legal();
        self.core().is_reached();
    }

    /// The fate of a transaction, where it has one.
    pub fn fate(&self, tx: Tx) -> Option<Fate>
        ensures { result ≡ fate_at (standing self.now.core tx) }
    {
        match self.core().standing(tx) {
            Some(Standing::Finished(fate)) => Some(fate),
            _ => None,
        }
    }

    /// Ends the epoch, whose book it gives, and begins the next one. That has the next number and no ticket, and goes
    /// on where the tables stand, but that the drained ones are empty. At a refusal, and where memory runs out, nothing
    /// changes.
    pub fn turn(
        &mut self,
        alloc: Global,
        drained: &[Name],
    ) -> Result<FinishedBook, Refusal<NotTurned>>
        ensures book { IfOk result (λ book. book_seen book ≡ book_of self.old.core) }
        ensures legal { IfOk result (λ book. IsLegal (book_seen book)) }
        ensures done { OnOk result (CanClose self.old.core) }
        ensures begun { OnOk result (self.new ≡ begun (self.old.number + 1) self.new.core.opening) }
        ensures renewed { OnOk result
            (IsRenewed self.old.core.opening.tables (carried_over drained.now self.old.core) self.new.core.opening) }
        ensures goes_on { OnOk result
            (GoesOn self.old.core.opening.tables (carried_over drained.now self.old.core) self.new.core) }
        ensures err { OnErr result (self.new ≡ self.old) }
        ensures busy { IfErr result (λ refusal. refusal ≡ Fault not_turned.Busy → ¬ CanClose self.old.core) }
        ensures too_many { IfErr result (λ refusal. refusal ≡ Fault not_turned.TooManyRows
            → MOST_OPENING_ROWS < rows_together self.old.core.opening.tables (carried_over drained.now self.old.core)) }
        ensures no_number { IfErr result (λ refusal. refusal ≡ Fault not_turned.NoNumber
            → self.old.number + 1 ≡ 2 ^ 64) }
    {
        if !can_close(self.core()) {
            return Err(Refusal::Fault(NotTurned::Busy));
        }
        let Some(number) = self.number.checked_add(1) else {
            return Err(Refusal::Fault(NotTurned::NoNumber));
        };
        let next = match next_core(alloc, self.core(), drained) {
            Ok(next) => next,
            Err(Refusal::Memory) => return Err(Refusal::Memory),
            Err(Refusal::Fault(TooManyRows)) => return Err(Refusal::Fault(NotTurned::TooManyRows)),
        };
        let telling = telling_of(alloc, &next)?;
        let book = exchange(&mut self.core, next)?;
        self.number = number;
        self.tickets.clear();
        self.telling = telling;
        Ok(book)
    }

    /// The book of the epoch, where no run is on and nobody waits for one; else, and where memory runs out, the epoch
    /// comes back.
    pub fn close(self) -> Result<FinishedBook, UnclosedEpoch>
        ensures book { IfOk result (λ book. book_seen book ≡ book_of self.core) }
        ensures legal { IfOk result (λ book. IsLegal (book_seen book)) }
        ensures done { OnOk result (CanClose self.core) }
        ensures returned { IfErr result (λ refused. refused.epoch ≡ self) }
        ensures not_done { IfErr result (λ refused. (fault : NotDone)
            → refused.refusal ≡ Fault fault
            → ¬ CanClose self.core) }
    {
        let Epoch {
            number,
            core,
            tickets,
            telling,
        } = self;
        let Some(open) = core else {
            unreachable!();
        };
        // A law: the opening has no fault of form.
        open.is_reached();
        match open.close() {
            Ok(book) => Ok(FinishedBook::new(book)),
            Err(NotClosed { core, refusal }) => Err(UnclosedEpoch {
                epoch: Epoch {
                    number,
                    core: Some(core),
                    tickets,
                    telling,
                },
                refusal,
            }),
        }
    }
}
