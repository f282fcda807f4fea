//! A core whose events are counted.
ghost use Rattle.std.specs.Prelude.{◌≡◌, ◌<◌, ◌^◌, ◌∷◌, [], ℕ, IfErr, IfOk, OnErr, OnOk, Some};
ghost use Rattle.std.specs.List.{AllByRecursion};
ghost use Rattle.ent_book.specs.Tables.{book_seen};
ghost use Rattle.ent_core.specs.Begin.{IsFreeMember, begin_refusal_seen};
ghost use Rattle.ent_core.specs.Reply.{reply_seen};
ghost use Rattle.ent_core.specs.declared.closing.NotDone.{NotDone};
ghost use Rattle.ent_protocol.specs.Event.{Begin, BreakCycle, EndRun, Finish, JoinAnswer, Pick};
ghost use Rattle.ent_protocol.specs.Event.{Recall, StartRun};
ghost use Rattle.ent_protocol.specs.Lookup.{Ready, Turn, running_members, standing};
ghost use Rattle.ent_protocol.specs.PoolEvents.{IsOutstandingJoint};
ghost use Rattle.ent_protocol.specs.Reached.{CanClose, IsFinishedBook, IsReached, book_of, scripts_of};
ghost use Rattle.ent_protocol.specs.Step.{Step};
ghost use Rattle.ent_core.specs.Passed.{resolved_forms};
ghost use Rattle.ent_sched.specs.Tally.{MakesEvent};
ghost use Rattle.ent_sched.specs.Watching.{heard_of};
ghost use Rattle.ent_semantics.specs.Book.{IsLegal};
ghost use Rattle.ent_protocol_laws.specs.Attempts.{AsksForRun};
ghost use Rattle.ent_value.specs.declared.refusal.Refusal.TheVariants.{Fault};

use crate::watcher::{MadeEvent, Silent, Watcher};
use ent_book::NamedTable;
use ent_core::{BeginRefusal, Core, FreeMember, NotClosed, NotDone, Reply};
use ent_eval::Done;
use ent_group::{Members, Tx};
use ent_semantics::Book;
use ent_value::{Refusal, Sequence, Ticks};
use std::alloc::{AllocError, AllocFailed};
use std::marker::Model;

/// A core, and how many events were made of it since it was counted. Whoever has it makes an event of the core only by
/// a call of this type, and each such call ticks once, also where the event changes nothing, and tells the watcher that
/// it is passed. Where memory runs out no event was made, nothing ticks and nothing is told.
#[derive(Drop)]
pub struct Counted {
    core: Core,
    ticks: Ticks,
}

impl Model for Counted {
    ghost use Rattle.std.specs.Coded.{codes};
    ghost use Rattle.ent_rel.specs.Relation.{coded_rows};
    ghost use Rattle.ent_sched.specs.Tally.{Tally};

    ghost Value = { Tally };

    ghost coded = { Prim.hlevel (codes, coded_rows) };

    ghost view = { λ c. record { core = c.core; ticks = c.ticks } };
}

/// A book, and how many events were made until it could be closed.
#[derive(Drop)]
pub struct CountedBook {
    pub book: Book<Sequence<NamedTable>>,
    pub ticks: Ticks,
}

/// A counted core that isn't closed, as it was, and why.
#[derive(Drop)]
pub(crate) struct NotClosedYet {
    pub(crate) counted: Counted,
    pub(crate) refusal: Refusal<NotDone>,
}

impl Counted {
    /// Counts the events of a core from now on.
    pub fn new(core: Core) -> Self
        ensures core { result.core ≡ core }
        ensures none_yet { result.ticks ≡ 0 }
    {
        Counted {
            core,
            ticks: Ticks::new(),
        }
    }

    /// The core, and how many events were made of it.
    pub fn into_parts(self) -> (Core, Ticks)
        ensures core { result.0 ≡ self.core }
        ensures ticks { result.1 ≡ self.ticks }
    {
        let Counted { core, ticks } = self;
        (core, ticks)
    }

    /// A law, which does nothing: what [`Core::is_reached`] says of the core, and that the count fits its type.
    pub fn is_reached(&self)
        ensures reached { IsReached resolved_forms self.now.core }
        ensures asks { AllByRecursion AsksForRun self.now.core.submitted }
        ensures bound { self.now.ticks < 2 ^ 64 }
    {
        self.core.is_reached();
        let _count = self.ticks.count();
    }

    /// Whether a run is on.
    pub fn running(&self) -> bool
        ensures { result ≡ self.now.core.running }
    {
        self.core.running()
    }

    /// The members of the run, by number.
    pub fn members(&self) -> Members
        ensures { result ≡ running_members self.now.core }
    {
        self.core.members()
    }

    /// Lends no job any more. It takes no memory.
    pub fn recall(&mut self) -> Reply
        ensures { MakesEvent resolved_forms Recall (reply_seen result) self.old self.new }
    {
        self.recall_watched(&mut Silent)
    }

    /// The same, and a watcher is told.
    pub(crate) fn recall_watched<W: Watcher>(&mut self, watcher: &mut W) -> Reply
        ensures made { MakesEvent resolved_forms Recall (reply_seen result) self.old self.new }
        ensures told { W.hears watcher.old (heard_of Recall (reply_seen result) self.new.core) watcher.new }
    {
        let reply = self.core.recall();
        self.ticks.add();
        watcher.tell(MadeEvent::Recall, &reply, &self.core);
        reply
    }

    /// Starts a run, or is refused.
    pub(crate) fn start_run<W: Watcher>(&mut self, watcher: &mut W) -> Result<Reply, AllocError>
        ensures ok { IfOk result (λ reply.
            MakesEvent resolved_forms StartRun (reply_seen reply) self.old self.new) }
        ensures err { OnErr result ((self.new ≡ self.old) × (watcher.new ≡ watcher.old)) }
        ensures told { IfOk result (λ reply.
            W.hears watcher.old (heard_of StartRun (reply_seen reply) self.new.core) watcher.new) }
    {
        let reply = self.core.start_run()?;
        self.ticks.add();
        watcher.tell(MadeEvent::StartRun, &reply, &self.core);
        Ok(reply)
    }

    /// The member of a number, where nothing keeps it from what comes next; or why a begin of it is refused. It is no
    /// event.
    pub(crate) fn free_member(&self, tx: Tx) -> Result<FreeMember, BeginRefusal>
        ensures free { IfOk result (IsFreeMember self.now.core) }
        ensures ready { IfOk result (λ found. (turn : Turn) × (standing self.now.core found.tx ≡ Some (Ready turn))) }
        ensures number { IfOk result (λ found. found.tx ≡ tx) }
        ensures refused { IfErr result (λ refusal.
            Step resolved_forms self.now.core (Begin tx) (begin_refusal_seen refusal) self.now.core) }
    {
        self.core.free_member(tx)
    }

    /// The begin of a member, which is refused and changes nothing, as was found. No reply is made for a watcher that
    /// doesn't listen.
    pub(crate) fn refuse_begin<W: Watcher>(
        &mut self,
        watcher: &mut W,
        tx: Tx,
        refusal: BeginRefusal,
    )
        requires { Step resolved_forms self.old.core (Begin tx) (begin_refusal_seen refusal) self.old.core }
        ensures made { MakesEvent resolved_forms (Begin tx) (begin_refusal_seen refusal) self.old self.new }
        ensures same { self.new.core ≡ self.old.core }
        ensures told { W.hears watcher.old (heard_of (Begin tx) (begin_refusal_seen refusal) self.new.core) watcher.new }
    {
        self.ticks.add();
        if watcher.listens() {
            watcher.tell(MadeEvent::Begin(tx), &refusal.reply(), &self.core);
        }
    }

    /// A member that was found free begins its next statement.
    pub(crate) fn begin<W: Watcher>(
        &mut self,
        watcher: &mut W,
        found: FreeMember,
    ) -> Result<Reply, AllocError>
        requires { IsFreeMember self.old.core found }
        ensures ok { IfOk result (λ reply.
            MakesEvent resolved_forms (Begin found.tx) (reply_seen reply) self.old self.new) }
        ensures err { OnErr result ((self.new ≡ self.old) × (watcher.new ≡ watcher.old)) }
        ensures told { IfOk result (λ reply.
            W.hears watcher.old (heard_of (Begin found.tx) (reply_seen reply) self.new.core) watcher.new) }
    {
        let reply = self.core.begin_free(found)?;
        self.ticks.add();
        watcher.tell(MadeEvent::Begin(found.tx()), &reply, &self.core);
        Ok(reply)
    }

    /// Takes the result of the statement whose job alone is lent.
    pub(crate) fn finish_at_once<W: Watcher>(
        &mut self,
        watcher: &mut W,
        done: Done,
    ) -> Result<Reply, AllocFailed<Done>>
        requires { self.old.core.lent ≡ done.job ∷ [] }
        ensures ok { IfOk result (λ reply.
            MakesEvent resolved_forms (Finish done) (reply_seen reply) self.old self.new) }
        ensures err { OnErr result ((self.new ≡ self.old) × (watcher.new ≡ watcher.old)) }
        ensures told { IfOk result (λ reply.
            W.hears watcher.old (heard_of (Finish done) (reply_seen reply) self.new.core) watcher.new) }
    {
        let mark = watcher.mark(&done);
        let reply = self.core.finish_at_once(done)?;
        self.ticks.add();
        watcher.tell(MadeEvent::Finish(mark), &reply, &self.core);
        Ok(reply)
    }

    /// Lends the job of a component, where one can be picked.
    pub(crate) fn pick<W: Watcher>(&mut self, watcher: &mut W) -> Result<Reply, AllocError>
        ensures ok { IfOk result (λ reply. MakesEvent resolved_forms Pick (reply_seen reply) self.old self.new) }
        ensures err { OnErr result ((self.new ≡ self.old) × (watcher.new ≡ watcher.old)) }
        ensures told { IfOk result (λ reply.
            W.hears watcher.old (heard_of Pick (reply_seen reply) self.new.core) watcher.new) }
    {
        let reply = self.core.pick()?;
        self.ticks.add();
        watcher.tell(MadeEvent::Pick, &reply, &self.core);
        Ok(reply)
    }

    /// Takes the result of the component whose job alone is lent.
    pub(crate) fn join_answer_at_once<W: Watcher>(
        &mut self,
        watcher: &mut W,
        done: Done,
    ) -> Result<Reply, AllocFailed<Done>>
        requires alone { self.old.core.lent ≡ done.job ∷ [] }
        requires outstanding { IsOutstandingJoint self.old.core done }
        ensures ok { IfOk result (λ reply.
            MakesEvent resolved_forms (JoinAnswer done) (reply_seen reply) self.old self.new) }
        ensures err { OnErr result ((self.new ≡ self.old) × (watcher.new ≡ watcher.old)) }
        ensures told { IfOk result (λ reply.
            W.hears watcher.old (heard_of (JoinAnswer done) (reply_seen reply) self.new.core) watcher.new) }
    {
        let mark = watcher.mark(&done);
        let reply = self.core.join_answer_at_once(done)?;
        self.ticks.add();
        watcher.tell(MadeEvent::JoinAnswer(mark), &reply, &self.core);
        Ok(reply)
    }

    /// Breaks a deadlock, where there is one. It takes no memory.
    pub(crate) fn break_cycle<W: Watcher>(&mut self, watcher: &mut W) -> Reply
        ensures made { MakesEvent resolved_forms BreakCycle (reply_seen result) self.old self.new }
        ensures told { W.hears watcher.old (heard_of BreakCycle (reply_seen result) self.new.core) watcher.new }
    {
        let reply = self.core.break_cycle();
        self.ticks.add();
        watcher.tell(MadeEvent::BreakCycle, &reply, &self.core);
        reply
    }

    /// Ends the run where it is quiet, or is refused.
    pub(crate) fn end_run<W: Watcher>(&mut self, watcher: &mut W) -> Result<Reply, AllocError>
        ensures ok { IfOk result (λ reply. MakesEvent resolved_forms EndRun (reply_seen reply) self.old self.new) }
        ensures err { OnErr result ((self.new ≡ self.old) × (watcher.new ≡ watcher.old)) }
        ensures told { IfOk result (λ reply.
            W.hears watcher.old (heard_of EndRun (reply_seen reply) self.new.core) watcher.new) }
    {
        let reply = self.core.end_run()?;
        self.ticks.add();
        watcher.tell(MadeEvent::EndRun, &reply, &self.core);
        Ok(reply)
    }

    /// The book, where no run is on and nobody waits for one, and the count; else, and where memory runs out, the
    /// counted core comes back. It is no event.
    pub(crate) fn close(self) -> Result<CountedBook, NotClosedYet>
        ensures book { IfOk result (λ made. book_seen made.book ≡ book_of self.core) }
        ensures ticks { IfOk result (λ made. made.ticks ≡ self.ticks) }
        ensures finished { IfOk result (λ made.
            IsFinishedBook resolved_forms self.core.opening (scripts_of self.core) (book_seen made.book)) }
        ensures legal { IfOk result (λ made. IsLegal (book_seen made.book)) }
        ensures done { OnOk result (CanClose self.core) }
        ensures returned { IfErr result (λ refused. refused.counted ≡ self) }
        ensures not_done { IfErr result (λ refused. (fault : NotDone)
            → refused.refusal ≡ Fault fault
            → ¬ CanClose self.core) }
    {
        let Counted { core, ticks } = self;
        match core.close() {
            Ok(book) => Ok(CountedBook { book, ticks }),
            Err(NotClosed { core, refusal }) => Err(NotClosedYet {
                counted: Counted { core, ticks },
                refusal,
            }),
        }
    }
}
