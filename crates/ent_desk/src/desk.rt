//! What stands behind the lock.
ghost use Rattle.std.specs.Prelude.{◌≡◌, ◌≢◌, ◌↔◌, ◌<◌, ◌≤◌, [], None, Some, Contains, IfErr, IfOk, IfSome, IsNone};
ghost use Rattle.std.specs.Prelude.{OnErr, OnOk, length, slice_get, true, false};
ghost use Rattle.ent_core.specs.Begin.{IsFreeMember};
ghost use Rattle.ent_core.specs.Pick.{NoneCanBePicked};
ghost use Rattle.ent_desk.specs.Advance.{Advances, BeginsUnless, IsStill, MakesUnless, MovesUnlessStill};
ghost use Rattle.ent_desk.specs.Drafts.{AreDraftedFor};
ghost use Rattle.ent_desk.specs.Lending.{TakesIn};
ghost use Rattle.ent_desk.specs.Receipts.{Receives};
ghost use Rattle.ent_desk.specs.Seen.{GetsReceipts, LeadsOn, with_ticket};
ghost use Rattle.ent_desk.specs.Told.{fate_in};
ghost use Rattle.ent_desk.specs.declared.desk.SubmitFault.TheVariants.{Form, Full};
ghost use Rattle.ent_form.specs.declared.fault.FormFault.{FormFault};
ghost use Rattle.ent_protocol.specs.Event.{Begin, BreakCycle, Faulty, Pick, Submit, Submitted};
ghost use Rattle.ent_protocol.specs.Lookup.{standing};
ghost use Rattle.ent_protocol.specs.Quiet.{CanMove, NoneIs};
ghost use Rattle.ent_protocol.specs.Reached.{IsGatheredAt, IsGatheredState, IsReached, book_of};
ghost use Rattle.ent_protocol.specs.Step.{Step};
ghost use Rattle.ent_protocol.specs.Waits.{NoDeadlock};
ghost use Rattle.ent_core.specs.Passed.{resolved_forms};
ghost use Rattle.ent_semantics.specs.Book.{IsLegal};
ghost use Rattle.ent_tree.specs.declared.limits.TheConstants.{MOST_SCRIPTS};
ghost use Rattle.ent_value.specs.declared.refusal.Refusal.TheVariants.{Fault};

use crate::advance::{Advance, is_leaving};
use crate::draft::{ReceiptDraft, drafts_for, fate_of, keep_receipts};
use crate::lending::{advance_told, keep_up, take_in};
use crate::session::Session;
use crate::ticket::Ticket;
use ent_core::{Core, FreeMember, Reply, resolved_runs_are_legal};
use ent_form::FormFault;
use ent_group::{MOST_MEMBERS, Tx};
use ent_protocol::refusals_change_nothing;
use ent_protocol_laws::{lent_jobs_stand_once, members_stand_by_number, transactions_stand_once};
use ent_semantics::Fate;
use ent_stamp::{LentStamps, Naming, StampedDone, StampedJob};
use ent_tree::{MOST_SCRIPTS, Script};
use ent_value::Refusal;
use std::alloc::{AllocError, AllocFailed, Global};
use std::marker::Model;
use std::sync::ledger::Book;
use thiserror::Error;

/// Why a script isn't taken.
#[derive(Clone, Copy, Debug, PartialEq, Eq, Error)]
pub enum SubmitFault {
    /// As many scripts as there may be were submitted before.
    #[error("E406: 10,000 scripts were submitted")]
    Full,
    /// The script's first fault of form.
    #[error("{0}")]
    Form(FormFault),
}

/// A script that isn't taken, and why.
#[derive(Drop)]
pub struct NotSubmitted {
    pub script: Script,
    pub refusal: Refusal<SubmitFault>,
}

/// A core, with how many scripts it was opened over, and the books of both ledgers: as many scripts and journal entries
/// were counted as the core has. With it the stamps of the jobs that the core lends, as far as they are known.
#[derive(Drop)]
pub struct Desk<L: Naming> {
    pub(crate) core: Core,
    pub(crate) count: usize,
    pub(crate) scripts: Book<L::Scripts>,
    pub(crate) entries: Book<L::Entries>,
    /// Whether members left the run since that was last asked.
    pub(crate) left: bool,
    pub(crate) known: LentStamps<L>,
}

impl<L: Naming> Model for Desk<L> {
    ghost use Rattle.std.specs.Coded.{codes};
    ghost use Rattle.ent_rel.specs.Relation.{coded_rows};
    ghost use Rattle.ent_desk.specs.Seen.{DeskState};

    ghost Value = { DeskState };

    ghost coded = { Prim.hlevel (codes, coded_rows) };

    ghost use Rattle.ent_desk.specs.Kept.{IsKeptDesk};
    ghost use Rattle.ent_stamp.specs.Stamps.{AreStampsBehind};

    ghost view = { λ d. record { core = d.core; count = d.count; left = d.left } };

    ghost invariant = { λ d. IsKeptDesk d.core d.count d.scripts.total d.entries.total
        × AreStampsBehind d.known.older d.known.stamps.items d.core.lent };
}

fn not_submitted(script: Script, refusal: Refusal<SubmitFault>) -> NotSubmitted
    ensures script { result.script ≡ script }
    ensures refusal { result.refusal ≡ refusal }
{
    NotSubmitted { script, refusal }
}

/// Submits a script to a core that takes one more. Where it has a fault of form, or memory runs out, it comes back.
fn submit_to(core: &mut Core, script: Script) -> Result<Tx, NotSubmitted>
    requires room { length core.old.submitted < MOST_SCRIPTS }
    ensures ok { IfOk result (λ tx. Step resolved_forms core.old (Submit script) (Submitted tx) core.new) }
    ensures err { OnErr result (core.new ≡ core.old) }
    ensures returned { IfErr result (λ refused. refused.script ≡ script) }
    ensures not_full { IfErr result (λ refused. refused.refusal ≢ Fault Full) }
    ensures form { IfErr result (λ refused. (fault : FormFault)
        → refused.refusal ≡ Fault (Form fault)
        → Step resolved_forms core.old (Submit script) (Faulty script fault) core.old) }
{
    let reply = match core.submit(script) {
        Ok(reply) => reply,
        Err(refused) => return Err(not_submitted(refused.value, Refusal::Memory)),
    };
    match reply {
        Reply::Submitted(tx) => Ok(tx),
        Reply::Faulty(script, fault) => Err(not_submitted(
            script,
            Refusal::Fault(SubmitFault::Form(fault)),
        )),
        _ => unreachable!(),
    }
}

impl<L: Naming> Desk<L> {
    /// A desk with a core that submits alone made, which the books count. Of the jobs that the core lends no stamp is
    /// known, nor of any that another core lent.
    pub(crate) fn new(
        core: Core,
        count: usize,
        scripts: Book<L::Scripts>,
        entries: Book<L::Entries>,
        mut known: LentStamps<L>,
    ) -> Self
        requires made { IsGatheredState resolved_forms count core }
        requires scripts { scripts.total ≡ length core.submitted }
        requires entries { (entries.total ≡ 0) × (core.journal ≡ []) }
        ensures { result ≡ record { core = core; count = count; left = false } }
    {
        known.forget(core.lent_count());
        Desk {
            core,
            count,
            scripts,
            entries,
            left: false,
            known,
        }
    }

    /// The core, which is gathered, reached and legal each time the lock is got.
    pub fn core(&self) -> &Core
        ensures value { result.now ≡ self.now.core }
        ensures gathered { IsGatheredAt resolved_forms self.now.count result.now }
        ensures reached { IsReached resolved_forms result.now }
        ensures legal { IsLegal (book_of result.now) }
    {
        resolved_runs_are_legal();
        self.core.is_reached();
        &self.core
    }

    /// Submits a script, of which a copy is handed in too, for the ticket. At a refusal nothing changes, and the script
    /// comes back: Full exactly where as many as there may be were submitted, which takes no memory to say.
    pub fn submit(
        &mut self,
        session: &mut Session<L>,
        script: Script,
        copy: Script,
    ) -> Result<Tx, NotSubmitted>
        requires same { copy ≡ script }
        ensures ok { IfOk result (λ tx.
            Step resolved_forms self.old.core (Submit script) (Submitted tx) self.new.core) }
        ensures ticket { IfOk result (λ tx. session.new ≡ with_ticket session.old tx script) }
        ensures count { self.new.count ≡ self.old.count }
        ensures left { self.new.left ≡ self.old.left }
        ensures err { OnErr result ((self.new ≡ self.old) × (session.new ≡ session.old)) }
        ensures returned { IfErr result (λ refused. refused.script ≡ script) }
        ensures full { IfErr result (λ refused.
            (refused.refusal ≡ Fault Full) ↔ (MOST_SCRIPTS ≤ length self.old.core.submitted)) }
        ensures form { IfErr result (λ refused. (fault : FormFault)
            → refused.refusal ≡ Fault (Form fault)
            → Step resolved_forms self.old.core (Submit script) (Faulty script fault) self.old.core) }
    {
        if self.core.submitted() >= MOST_SCRIPTS {
            return Err(not_submitted(script, Refusal::Fault(SubmitFault::Full)));
        }
        if session.tickets.reserve(1).is_err() {
            return Err(not_submitted(script, Refusal::Memory));
        }
        let tx = submit_to(&mut self.core, script)?;
        self.scripts.add(&mut session.submitted, 1);
        session.tickets.push_reserved(Ticket { tx, script: copy });
        Ok(tx)
    }

    /// Makes the first of these events that moves: a member, by number, begins; a component is picked; a deadlock is
    /// broken; the run ends; a run starts. A job that is lent is to be done with no lock held, and its result to be
    /// handed in. The receipts of a commit are the session's. Idle: nothing moves until a job that is out comes back.
    /// Done: no run is on, nobody waits for one, and each script has its fate. At both, and where memory runs out,
    /// nothing changes.
    #[tactic(auto, using(crate::proofs::Receiving::receives_none))]
    pub fn advance(
        &mut self,
        alloc: Global,
        session: &mut Session<L>,
    ) -> Result<Advance<StampedJob<L>>, AllocError>
        ensures ok { IfOk result (λ advance. Advances self.old advance self.new) }
        ensures events { LeadsOn self.old self.new }
        ensures session { GetsReceipts session.old session.new }
        ensures receipts { Receives self.old.core self.new.core session.old.receipts session.new.receipts }
        ensures err { OnErr result ((self.new ≡ self.old) × (session.new ≡ session.old)) }
    {
        if let Some(moved) = self.move_in_run(alloc, session)? {
            return Ok(moved);
        }
        self.end_or_start()
    }

    /// The first of the run's events that moves is made; none where the run is still.
    #[tactic(auto, using(crate::proofs::Receiving::receives_none))]
    pub(crate) fn move_in_run(
        &mut self,
        alloc: Global,
        session: &mut Session<L>,
    ) -> Result<Option<Advance<StampedJob<L>>>, AllocError>
        ensures ok { IfOk result (λ told. MovesUnlessStill self.old told self.new) }
        ensures same { IfOk result (λ told. told ≡ None → session.new ≡ session.old) }
        ensures session { GetsReceipts session.old session.new }
        ensures receipts { Receives self.old.core self.new.core session.old.receipts session.new.receipts }
        ensures err { OnErr result ((self.new ≡ self.old) × (session.new ≡ session.old)) }
    {
        if let Some(begun) = self.begin_first(alloc, session)? {
            return Ok(Some(begun));
        }
        self.pick_or_break()
    }

    /// A component is picked; else a deadlock is broken.
    fn pick_or_break(&mut self) -> Result<Option<Advance<StampedJob<L>>>, AllocError>
        requires nobody_moves { NoneIs (CanMove self.old.core) }
        ensures ok { IfOk result (λ told. MovesUnlessStill self.old told self.new) }
        ensures journal { self.new.core.journal ≡ self.old.core.journal }
        ensures err { OnErr result (self.new ≡ self.old) }
    {
        if let Some(picked) = self.pick()? {
            return Ok(Some(picked));
        }
        Ok(self.break_cycle())
    }

    /// The run ends; where none is on one starts.
    fn end_or_start(&mut self) -> Result<Advance<StampedJob<L>>, AllocError>
        requires still { IsStill self.old.core }
        ensures ok { IfOk result (λ advance. Advances self.old advance self.new) }
        ensures journal { self.new.core.journal ≡ self.old.core.journal }
        ensures err { OnErr result (self.new ≡ self.old) }
    {
        if self.core.running() {
            self.end_run()
        } else {
            self.start_run()
        }
    }

    /// The first member, by number, that is ready and that moves begins its next statement.
    #[tactic(auto, using(crate::proofs::Receiving::receives_none))]
    fn begin_first(
        &mut self,
        alloc: Global,
        session: &mut Session<L>,
    ) -> Result<Option<Advance<StampedJob<L>>>, AllocError>
        ensures ok { IfOk result (λ told. BeginsUnless self.old told self.new) }
        ensures same { IfOk result (λ told. told ≡ None → session.new ≡ session.old) }
        ensures session { GetsReceipts session.old session.new }
        ensures receipts { Receives self.old.core self.new.core session.old.receipts session.new.receipts }
        ensures err { OnErr result ((self.new ≡ self.old) × (session.new ≡ session.old)) }
    {
        let members = self.core.members();
        for tx in members.as_slice() {
            if let Some(begun) = self.begin_ready(alloc, session, *tx)? {
                return Ok(Some(begun));
            }
        }
        Ok(None)
    }

    /// A member begins its next statement, where it is ready and nobody blocks it.
    #[tactic(auto, using(crate::proofs::Receiving::receives_none))]
    fn begin_ready(
        &mut self,
        alloc: Global,
        session: &mut Session<L>,
        tx: Tx,
    ) -> Result<Option<Advance<StampedJob<L>>>, AllocError>
        ensures ok { IfOk result (λ told.
            MakesUnless (¬ CanMove self.old.core tx) (Begin tx) self.old told self.new) }
        ensures same { IfOk result (λ told. told ≡ None → session.new ≡ session.old) }
        ensures session { GetsReceipts session.old session.new }
        ensures receipts { Receives self.old.core self.new.core session.old.receipts session.new.receipts }
        ensures err { OnErr result ((self.new ≡ self.old) × (session.new ≡ session.old)) }
    {
        members_stand_by_number::<FormFault>();
        transactions_stand_once::<FormFault>();
        self.core.is_reached();
        let found = match self.core.free_member(tx) {
            Ok(found) => found,
            Err(_why) => return Ok(None),
        };
        let drafts = drafts_for(alloc, &self.core, found)?;
        self.begin(session, found, drafts)
    }

    /// A free member begins its next statement. Room for the receipts of its group is made first, and their answers are
    /// drafted, so that nothing can fail behind the event.
    #[tactic(auto, using(crate::proofs::Receiving::receives_none))]
    fn begin(
        &mut self,
        session: &mut Session<L>,
        found: FreeMember,
        drafts: Vec<ReceiptDraft>,
    ) -> Result<Option<Advance<StampedJob<L>>>, AllocError>
        requires free { IsFreeMember self.old.core found }
        requires drafted { AreDraftedFor self.old.core found.tx drafts.items }
        ensures ok { IfOk result (λ told.
            MakesUnless (¬ CanMove self.old.core found.tx) (Begin found.tx) self.old told self.new) }
        ensures same { IfOk result (λ told. told ≡ None → session.new ≡ session.old) }
        ensures session { GetsReceipts session.old session.new }
        ensures receipts { Receives self.old.core self.new.core session.old.receipts session.new.receipts }
        ensures err { OnErr result ((self.new ≡ self.old) × (session.new ≡ session.old)) }
    {
        members_stand_by_number::<FormFault>();
        transactions_stand_once::<FormFault>();
        refusals_change_nothing::<FormFault>();
        session.receipts.reserve(MOST_MEMBERS)?;
        self.core.is_reached();
        let before = self.core.journal().len();
        let reply = self.core.begin_free(found)?;
        self.left |= is_leaving(&reply);
        self.core.is_reached();
        let made = keep_receipts(&self.core, &mut session.receipts, before, drafts);
        self.entries.add(&mut session.committed, made as u64);
        Ok(advance_told(&self.core, &mut self.known, reply))
    }

    /// A component of what is posted is picked, and its job lent, where there is one.
    fn pick(&mut self) -> Result<Option<Advance<StampedJob<L>>>, AllocError>
        ensures ok { IfOk result (λ told. MakesUnless (NoneCanBePicked self.old.core) Pick self.old told self.new) }
        ensures journal { self.new.core.journal ≡ self.old.core.journal }
        ensures err { OnErr result (self.new ≡ self.old) }
    {
        let reply = self.core.pick()?;
        Ok(advance_told(&self.core, &mut self.known, reply))
    }

    /// A deadlock is broken, where there is one.
    fn break_cycle(&mut self) -> Option<Advance<StampedJob<L>>>
        ensures ok { MakesUnless (NoDeadlock self.old.core) BreakCycle self.old result self.new }
        ensures journal { self.new.core.journal ≡ self.old.core.journal }
    {
        let reply = self.core.break_cycle();
        self.left |= is_leaving(&reply);
        advance_told(&self.core, &mut self.known, reply)
    }

    /// Takes the result of a job, which is found by its stamp where that is known. One that isn't outstanding is
    /// dropped. Where memory runs out nothing changes, and the result comes back.
    pub fn hand_in(&mut self, done: StampedDone<L>) -> Result<(), AllocFailed<StampedDone<L>>>
        ensures ok { OnOk result (TakesIn self.old done self.new) }
        ensures events { LeadsOn self.old self.new }
        ensures err { OnErr result (self.new ≡ self.old) }
        ensures returned { IfErr result (λ refused. refused.value ≡ done) }
    {
        match self.index_of(&done) {
            Some(index) => self.hand_in_at(index, done),
            None => Ok(()),
        }
    }

    /// The index of the job of a result: by its stamp, where that is known; else by all that the jobs have, their
    /// tables row by row. None where it isn't lent.
    fn index_of(&self, done: &StampedDone<L>) -> Option<usize>
        ensures some { IfSome result (λ index. slice_get self.now.core.lent index ≡ Some done.now.job) }
        ensures none { IsNone result → Contains self.now.core.lent done.now.job → ⊥ }
    {
        match self.known.index_of(done.stamp()) {
            Some(index) => Some(index),
            None => self.core.lent_index(done.done().job()),
        }
    }

    /// Takes the result of a lent job, of which the index is known.
    fn hand_in_at(
        &mut self,
        index: usize,
        done: StampedDone<L>,
    ) -> Result<(), AllocFailed<StampedDone<L>>>
        requires { slice_get self.old.core.lent index ≡ Some done.job }
        ensures ok { OnOk result (TakesIn self.old done self.new) }
        ensures events { LeadsOn self.old self.new }
        ensures err { OnErr result (self.new ≡ self.old) }
        ensures returned { IfErr result (λ refused. refused.value ≡ done) }
    {
        lent_jobs_stand_once::<FormFault>();
        self.core.is_reached();
        let (done, stamp) = done.into_parts();
        match take_in(&mut self.core, index, done) {
            Ok(reply) => {
                keep_up(&self.core, &mut self.known, index, &reply);
                self.left |= is_leaving(&reply);
                Ok(())
            }
            Err(refused) => Err(AllocFailed {
                value: StampedDone::new(refused.value, stamp),
            }),
        }
    }

    /// Whether members left the run since this was last asked, so that there may be new fates. It is for who wakes those
    /// that wait for one: where it says no, no fate came.
    pub fn take_left(&mut self) -> bool
        ensures told { result ≡ self.old.left }
        ensures asked { self.new ≡ record self.old { left = false } }
    {
        let left = self.left;
        self.left = false;
        left
    }

    /// The fate of a transaction that is finished.
    pub fn fate(&self, tx: Tx) -> Option<Fate>
        ensures { result ≡ fate_in (standing self.now.core tx) }
    {
        fate_of(&self.core, tx)
    }
}
