//! The manager.
ghost use Rattle.std.specs.Prelude.{◌≡◌, ◌≢◌, ◌-◌, ◌<◌, ◌≤◌, ◌==◌, ◌∷◌};
ghost use Rattle.std.specs.Prelude.{◌↔◌, None, Some, IfErr, IfOk, OnErr, OnOk};
ghost use Rattle.std.specs.Prelude.{length, replicate, vec_len};
ghost use Rattle.std.specs.Fn.{FnOnceReturnsAt, FnOnceTakesAt};
ghost use Rattle.ent_book.specs.Tables.{book_seen};
ghost use Rattle.ent_desk.specs.Closed.{IsClosedBook, IsWholeBook};
ghost use Rattle.ent_desk.specs.Opened.{first_session, other_session};
ghost use Rattle.ent_desk.specs.Receipts.{IsInJournal};
ghost use Rattle.ent_desk.specs.Seen.{GetsReceipts, with_ticket};
ghost use Rattle.ent_desk.specs.declared.closing.CloseFault.TheVariants.{NotDone, SessionsOut};
ghost use Rattle.ent_form.specs.InputFault.{input_fault};
ghost use Rattle.ent_form.specs.declared.fault.FormFault.{FormFault};
ghost use Rattle.ent_protocol.specs.State.{State};
ghost use Rattle.ent_serve.specs.Fates.{IsBehindLockFor, TellsFate};
ghost use Rattle.ent_serve.specs.Look.{IsBehindLock, IsLeftBehindLock};
ghost use Rattle.ent_serve.specs.declared.manager.TheConstants.{MOST_SESSIONS};
ghost use Rattle.ent_value.specs.declared.refusal.Refusal.TheVariants.{Fault, Memory};

use crate::bell::Bell;
use crate::gate::Gate;
use ent_book::NamedTable;
use ent_desk::{
    Advance, Blanks, CloseFault, Core, Desk, Naming, NotSubmitted, PlayFault, Receipt, Seats,
    Session, StampedDone, StampedJob, Stopped, open,
};
use ent_group::Tx;
use ent_semantics::{Book, Fate};
use ent_tree::{Duplicate, Input, Script};
use ent_value::{Refusal, Sequence};
use std::alloc::{AllocError, Global};
use std::sync::{Mutex, Wait};

/// The most sessions of a manager.
pub const MOST_SESSIONS: usize = 64;

/// How far a call of [`Manager::work`] came.
#[derive(Clone, Copy, Debug, PartialEq, Eq)]
pub enum Headway {
    /// Something moved.
    Moved,
    /// Another session's job must come first.
    Idle,
    /// Every transaction has its fate.
    Done,
}

/// One lock over a core, for several clients, each with a session of its own. `sessions` counts them.
#[derive(Drop)]
pub struct Manager<L: Naming, G: Gate> {
    pub(crate) alloc: Global,
    pub(crate) desk: Mutex<Desk<L>>,
    pub(crate) bell: Bell,
    pub(crate) gate: G,
    pub sessions: usize,
    ghost some: { 0 < sessions },
    ghost scripts: { sessions ≡ L.Scripts.seats },
    ghost entries: { sessions ≡ L.Entries.seats },
}

/// A manager that isn't closed, with its sessions, as they were, and why.
#[derive(Drop)]
pub struct UnclosedManager<L: Naming, G: Gate> {
    pub manager: Manager<L, G>,
    pub sessions: Vec<Session<L>>,
    pub refusal: Refusal<CloseFault>,
}

/// A manager that gives no book yet, as it was, and why: E405, or memory ran out.
#[derive(Drop)]
pub struct NoBook<L: Naming, G: Gate> {
    pub manager: Manager<L, G>,
    pub refusal: Refusal<CloseFault>,
}

impl<L: Naming, G: Gate> Manager<L, G> {
    /// Opens a manager over an input: its scripts are submitted in order, and the first of so many sessions, 1 to
    /// [`MOST_SESSIONS`], has their tickets. Else the input's first fault of form. Each ledger of `blank` has a part
    /// for each session, and its log is the manager's. It waits for nobody.
    pub fn open(
        alloc: Global,
        blank: Blanks,
        input: Input,
        gate: G,
        sessions: usize,
    ) -> Result<(Self, Vec<Session<L>>), PlayFault>
        requires nonempty { 0 < sessions }
        requires bound { sessions ≤ MOST_SESSIONS }
        requires names { (blank.scripts.name ≡ L.Scripts.name) × (blank.entries.name ≡ L.Entries.name)
            × (blank.jobs ≡ L.Scripts.book) }
        requires blank { (blank.scripts.parts ≡ sessions) × (blank.entries.parts ≡ sessions) }
        requires scripts { (L.Scripts.seats ≡ sessions) × (L.Scripts.parts ≡ sessions) }
        requires entries { (L.Entries.seats ≡ sessions) × (L.Entries.parts ≡ sessions) }
        ensures manager { IfOk result (λ opened. opened.0.sessions ≡ sessions) }
        ensures sessions { IfOk result (λ opened. opened.1.items
            ≡ first_session input.opening input.scripts ∷ replicate (sessions - 1) other_session) }
        ensures formed { OnOk result (input_fault input.opening input.scripts ≡ None) }
        ensures fault { IfErr result (λ refusal. (fault : FormFault)
            → refusal ≡ Fault fault
            → input_fault input.opening input.scripts ≡ Some fault) }
    {
        let (desk, seated) = open::<L>(alloc, blank, input, sessions)?;
        let manager = Manager {
            alloc,
            desk: Mutex::new(desk),
            bell: Bell::new(),
            gate,
            sessions,
        };
        Ok((manager, seated))
    }

    /// Submits a script: the number of its transaction, of which the session keeps the ticket. At a refusal the session
    /// is as it was, and the script comes back.
    pub fn submit<R: Wait>(
        &self,
        rt: &R,
        session: &mut Session<L>,
        script: Script,
    ) -> Result<Tx, NotSubmitted>
        ensures ok { IfOk result (λ tx. session.new ≡ with_ticket session.old tx script) }
        ensures err { OnErr result (session.new ≡ session.old) }
        ensures returned { IfErr result (λ refused. refused.script ≡ script) }
    {
        match script.copy(self.alloc) {
            Ok(copy) => {
                self.bell.begin_submit();
                let submitted = self.desk.lock(rt).submit(session, script, copy);
                self.bell.end_submit();
                if submitted.is_ok() {
                    self.bell.ring(rt);
                }
                submitted
            }
            Err(AllocError) => Err(NotSubmitted {
                script,
                refusal: Refusal::Memory,
            }),
        }
    }

    /// Goes on with what is to be done, whoever submitted it: with what memory stopped, else with the first event that
    /// moves. A job that is lent is done with no lock held, behind the gate. The session keeps the receipts of all
    /// members of a group that its step committed. Where memory runs out, what was stopped is kept, and the next call
    /// goes on with it.
    pub fn work<R: Wait>(&self, rt: &R, session: &mut Session<L>) -> Result<Headway, AllocError>
        ensures { GetsReceipts session.old session.new }
    {
        match session.take_stopped() {
            Some(stopped) => self.resume(rt, session, stopped),
            None => self.advance(rt, session),
        }
    }

    /// Goes on with what memory stopped.
    pub(crate) fn resume<R: Wait>(
        &self,
        rt: &R,
        session: &mut Session<L>,
        stopped: Stopped<L>,
    ) -> Result<Headway, AllocError>
        ensures { session.new ≡ session.old }
    {
        match stopped {
            Stopped::Job(job) => self.carry_out(rt, session, job),
            Stopped::Done(done) => self.hand_in(rt, session, done),
        }
    }

    /// The first event that moves, and where it lends a job, that job.
    fn advance<R: Wait>(&self, rt: &R, session: &mut Session<L>) -> Result<Headway, AllocError>
        ensures { GetsReceipts session.old session.new }
    {
        self.bell.give_way();
        let mut desk = self.desk.lock(rt);
        let advance = desk.advance(self.alloc, session)?;
        let left = desk.take_left();
        drop(desk);
        self.go_on(rt, session, advance, left)
    }

    /// Tells the bell that something moved, and whether somebody left the run, and so may have a fate.
    pub(crate) fn tell<R: Wait>(&self, rt: &R, left: bool) {
        if left {
            self.bell.ring_fate(rt);
        } else {
            self.bell.ring(rt);
        }
    }

    /// Rings where something moved, and does the job, where one is lent.
    pub(crate) fn go_on<R: Wait>(
        &self,
        rt: &R,
        session: &mut Session<L>,
        advance: Advance<StampedJob<L>>,
        left: bool,
    ) -> Result<Headway, AllocError>
        ensures { session.new ≡ session.old }
    {
        match advance {
            Advance::Lent(job) => {
                self.tell(rt, left);
                self.carry_out(rt, session, job)
            }
            Advance::Moved => {
                self.tell(rt, left);
                Ok(Headway::Moved)
            }
            Advance::Idle => Ok(Headway::Idle),
            Advance::Done => Ok(Headway::Done),
        }
    }

    /// Does a job, behind the gate, with no lock held, and hands its result in.
    fn carry_out<R: Wait>(
        &self,
        rt: &R,
        session: &mut Session<L>,
        job: StampedJob<L>,
    ) -> Result<Headway, AllocError>
        ensures { session.new ≡ session.old }
    {
        if self.gate.takes_long(job.job()) {
            self.bell.pass_baton(rt);
        }
        self.gate.before(job.job());
        match job.evaluate(self.alloc) {
            Ok(done) => self.hand_in(rt, session, done),
            Err(refused) => {
                session.keep_stopped(Stopped::Job(refused.value));
                Err(AllocError)
            }
        }
    }

    /// Hands in a result. One that isn't outstanding is dropped.
    fn hand_in<R: Wait>(
        &self,
        rt: &R,
        session: &mut Session<L>,
        done: StampedDone<L>,
    ) -> Result<Headway, AllocError>
        ensures { session.new ≡ session.old }
    {
        self.bell.give_way();
        let mut desk = self.desk.lock(rt);
        let handed = desk.hand_in(done);
        let left = desk.take_left();
        drop(desk);
        match handed {
            Ok(()) => {
                self.tell(rt, left);
                Ok(Headway::Moved)
            }
            Err(refused) => {
                session.keep_stopped(Stopped::Done(refused.value));
                Err(AllocError)
            }
        }
    }

    /// What became of a transaction: Committed, as the session's receipt of it says, where it holds one; else the fate
    /// that the core behind the lock has for it, None where it has none yet.
    pub fn fate<R: Wait>(&self, rt: &R, session: &Session<L>, tx: Tx) -> Option<Fate>
        ensures { TellsFate session.now.receipts tx result }
    {
        match session.fate(tx) {
            Some(fate) => Some(fate),
            None => self.fate_behind_lock(rt, tx),
        }
    }

    /// The fate that the core behind the lock has for a transaction.
    fn fate_behind_lock<R: Wait>(&self, rt: &R, tx: Tx) -> Option<Fate>
        ensures { IsBehindLockFor tx result }
    {
        let desk = self.desk.lock(rt);
        let _core = desk.core();
        let fate = desk.fate(tx);
        fate
    }

    /// What the journal has for a transaction, for whoever asks: its commit number, its runs, and copies of its
    /// answers, which take memory; None where it hasn't committed by now.
    pub fn receipt_of<R: Wait>(&self, rt: &R, tx: Tx) -> Result<Option<Receipt>, AllocError>
        ensures { IfOk result (λ told. (core : State) × IsBehindLock core × IsInJournal core tx told) }
    {
        let desk = self.desk.lock(rt);
        let _core = desk.core();
        let told = desk.receipt_of(self.alloc, tx)?;
        Ok(told)
    }

    /// What a closure tells of the core, which it sees with the lock held: a core to which events led from its own
    /// opening, and whose book is legal. It is to be quick, since nobody else gets on meanwhile, and to make no call of
    /// the manager.
    pub fn look<R: Wait, T, F: FnOnce(&Core) -> T>(&self, rt: &R, tell: F) -> T
        requires { (core : State) → IsBehindLock core → FnOnceTakesAt F.FnOnce tell core }
        ensures { (core : State) × IsBehindLock core × FnOnceReturnsAt F.FnOnce tell core result }
    {
        let desk = self.desk.lock(rt);
        let told = tell(desk.core());
        told
    }

    /// The book of all, where all sessions are given and every transaction has its fate; the sessions come back. Else
    /// the manager and the sessions come back, with the reason. It waits for nobody.
    pub fn close(
        self,
        mut sessions: Vec<Session<L>>,
    ) -> Result<(Book<Sequence<NamedTable>>, Vec<Session<L>>), UnclosedManager<L, G>>
        requires { (L.Scripts.seats ≡ L.Scripts.parts) × (L.Entries.seats ≡ L.Entries.parts) }
        ensures book { IfOk result (λ closed. IsClosedBook (book_seen closed.0) sessions.items) }
        ensures same { IfOk result (λ closed. closed.1.items ≡ sessions.items) }
        ensures all_given { OnOk result (vec_len sessions ≡ self.sessions) }
        ensures returned { IfErr result (λ refused. refused.sessions.items ≡ sessions.items) }
        ensures manager { IfErr result (λ refused. refused.manager.sessions ≡ self.sessions) }
        ensures sessions_out { IfErr result (λ refused.
            (refused.refusal ≡ Fault SessionsOut) ↔ (vec_len sessions ≢ self.sessions)) }
        ensures not_done { IfErr result (λ refused. refused.refusal ≡ Fault NotDone → IsLeftBehindLock) }
    {
        if sessions.len() != self.sessions {
            return Err(UnclosedManager {
                manager: self,
                sessions,
                refusal: Refusal::Fault(CloseFault::SessionsOut),
            });
        }
        let Manager {
            alloc,
            desk,
            bell,
            gate,
            sessions: count,
        } = self;
        let desk = desk.into_inner();
        let _core = desk.core();
        match desk.close(sessions.as_mut_slice()) {
            Ok(book) => Ok((book, sessions)),
            Err(refused) => Err(UnclosedManager {
                manager: Manager {
                    alloc,
                    desk: Mutex::new(refused.desk),
                    bell,
                    gate,
                    sessions: count,
                },
                sessions,
                refusal: refused.refusal,
            }),
        }
    }

    /// The book of all without the sessions, where every transaction has its fate: so a session that is lost loses no
    /// book. Else the manager comes back, with the reason, E405 or want of memory. It waits for nobody.
    pub fn into_book(self) -> Result<Book<Sequence<NamedTable>>, NoBook<L, G>>
        ensures book { IfOk result (λ book. IsWholeBook (book_seen book)) }
        ensures manager { IfErr result (λ refused. refused.manager.sessions ≡ self.sessions) }
        ensures refusal { IfErr result (λ refused. refused.refusal ≢ Memory → refused.refusal ≡ Fault NotDone) }
        ensures not_done { IfErr result (λ refused. refused.refusal ≡ Fault NotDone → IsLeftBehindLock) }
    {
        let Manager {
            alloc,
            desk,
            bell,
            gate,
            sessions,
        } = self;
        let desk = desk.into_inner();
        let _core = desk.core();
        match desk.into_book() {
            Ok(book) => Ok(book),
            Err(refused) => Err(NoBook {
                manager: Manager {
                    alloc,
                    desk: Mutex::new(refused.desk),
                    bell,
                    gate,
                    sessions,
                },
                refusal: refused.refusal,
            }),
        }
    }
}
