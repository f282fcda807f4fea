//! The core whose type keeps that its state is reached.
ghost use Rattle.std.specs.Prelude.{Contains, IfErr, IfOk, IfSome, IsNone, IsOk, MatchOption, None, OnErr, OnOk, Some};
ghost use Rattle.std.specs.Prelude.{◌≡◌, ◌∷◌, [], length, slice_get};
ghost use Rattle.std.specs.Arc.{arc_value};
ghost use Rattle.std.specs.List.{AllByRecursion};
ghost use Rattle.std.specs.Option.{option_copied, option_map};
ghost use Rattle.ent_book.specs.Tables.{book_seen};
ghost use Rattle.ent_core.specs.Begin.{IsFreeMember, begin_refusal_seen};
ghost use Rattle.ent_core.specs.Kinds.{kinds_of_table};
ghost use Rattle.ent_core.specs.Reply.{reply_seen};
ghost use Rattle.ent_core.specs.Standing.{standing_seen};
ghost use Rattle.ent_members.specs.Turn.{turn_seen};
ghost use Rattle.ent_form.specs.OpeningFault.{opening_fault, unless};
ghost use Rattle.ent_protocol.specs.Event.{Begin, BreakCycle, EndRun, Finish, JoinAnswer, Pick};
ghost use Rattle.ent_protocol.specs.Event.{Recall, StartRun, Submit};
ghost use Rattle.ent_protocol.specs.Member.{RollsBack, active_member, next_of, pool};
ghost use Rattle.ent_protocol.specs.State.{Member};
ghost use Rattle.ent_protocol.specs.Job as jobs;
ghost use Rattle.ent_protocol.specs.PoolEvents.{IsOutstandingJoint};
ghost use Rattle.ent_semantics.specs.declared.answer.Failure.{Failure};
ghost use Rattle.ent_protocol.specs.Lookup.{answers_of, dormant_at, entry_at, group_of, present_rows};
ghost use Rattle.ent_protocol.specs.Lookup.{Ready, Turn as Next, running_members, standing};
ghost use Rattle.ent_protocol.specs.Reached.{CanClose, IsFinishedBook, IsReached, book_of, opened, scripts_of};
ghost use Rattle.ent_protocol.specs.Reached.{settled};
ghost use Rattle.ent_protocol.specs.Step.{Step};
ghost use Rattle.ent_headline.specs.Resolved.{resolved_forms};
ghost use Rattle.ent_semantics.specs.Book.{IsLegal};
ghost use Rattle.ent_semantics.specs.Serial.{numbered};
ghost use Rattle.ent_protocol_laws.specs.Attempts.{AsksForRun};
ghost use Rattle.ent_tables.specs.Stored.{kinds_declared, kinds_of, rows_of};
ghost use Rattle.ent_value.specs.Refusal.{Gives};
ghost use Rattle.ent_value.specs.declared.refusal.Refusal.TheVariants.{Fault};
ghost use Rattle.ent_match.specs.Place.{HasNoneOf};
ghost use Rattle.ent_core.specs.Obstacle.{IsBetween, IsObstacle, IsOf};
ghost use Rattle.ent_core.specs.declared.closing.NotDone.{NotDone};

use crate::begin::{BeginRefusal, FreeMember, begin, begin_free, free_member};
use crate::break_cycle::break_cycle;
use crate::closing::{NotClosed, NotDone, book, book_parts, can_close};
use crate::end_run::end_run;
use crate::finish::{finish, finish_at};
use crate::join_answer::{join_answer, join_answer_at, join_answer_at_once};
use crate::lookup;
use crate::obstacle::{Obstacle, conflict_between, obstacle_of};
use crate::open::open;
use crate::pick::pick;
use crate::recall::recall;
use crate::reply::Reply;
use crate::standing::{Standing, next_turn, standing_of};
use crate::start_run::start_run;
use crate::store::Store;
use crate::submit::submit;
use ent_book::NamedTable;
use ent_eval::Done;
use ent_form::FormFault;
use ent_group::{Members, Tx};
use ent_headline::resolved_runs_are_legal;
use ent_job::Job;
use ent_match::Posted;
use ent_members::{Conflict, Entrant, Turn};
use ent_protocol::{closing_gives_the_book, reached_states_are_tidy};
use ent_protocol_laws::{steps_go_on, transactions_stand_once};
use ent_rel::Table;
use ent_semantics::{Answer, Book, Entry};
use ent_tree::{Opening, Script};
use ent_value::{Name, Refusal, Sequence};
use std::alloc::{AllocError, AllocFailed, Global};
use std::marker::Model;
use std::sync::Arc;

/// Scripts that are run at once over an opening. Contracts see the protocol's state; it is always reached: events led
/// to it from the opening's own state.
pub struct Core {
    store: Store,
}

impl Drop for Core {
    fn drop(self) {
        let Core { store: _store } = self;
    }
}

impl Model for Core {
    ghost use Rattle.std.specs.Coded.{codes};
    ghost use Rattle.ent_rel.specs.Relation.{coded_rows};
    ghost use Rattle.ent_protocol.specs.State.{State};
    ghost use Rattle.ent_core.specs.Kept.{IsKeptState};

    ghost Value = { State };

    ghost coded = { Prim.hlevel (codes, coded_rows) };

    ghost view = { λ c. c.store };

    ghost invariant = { λ c. IsKeptState c.store };
}

impl Core {
    /// A core over an opening, with its tables loaded: no script, no run. Else the opening's first fault of form.
    pub fn open(alloc: Global, opening: Opening) -> Result<Self, Refusal<FormFault>>
        ensures { Gives (λ core. core) result (unless (opening_fault opening) (opened opening)) }
    {
        Ok(Core {
            store: open(alloc, opening)?,
        })
    }

    /// Takes a script, which stands last in the dormant list, and answers its number; or refuses it with its first
    /// fault of form, or where as many as there may be were submitted. Where memory runs out the script comes back.
    pub fn submit(&mut self, script: Script) -> Result<Reply, AllocFailed<Script>>
        ensures ok { IfOk result (λ reply. Step resolved_forms self.old (Submit script) (reply_seen reply) self.new) }
        ensures err { OnErr result (self.new ≡ self.old) }
        ensures returned { IfErr result (λ refused. refused.value ≡ script) }
        ensures legal { IsLegal (book_of self.new) }
    {
        resolved_runs_are_legal();
        steps_go_on::<FormFault>();
        submit(&mut self.store, script)
    }

    /// Makes the first of the dormant list, as many as a run may have, members of a run. Refused while a run is on, and
    /// where nothing is dormant.
    pub fn start_run(&mut self) -> Result<Reply, AllocError>
        ensures ok { IfOk result (λ reply. Step resolved_forms self.old StartRun (reply_seen reply) self.new) }
        ensures err { OnErr result (self.new ≡ self.old) }
        ensures legal { IsLegal (book_of self.new) }
    {
        resolved_runs_are_legal();
        steps_go_on::<FormFault>();
        start_run(&mut self.store)
    }

    /// The member of a number begins its next statement, or ends as its script does. Lent: its job is to come back.
    /// Refused where it isn't there, is prepared, is posted or has its job out, where another member blocks it, and
    /// where the pool with its statement would be unsafe. Where memory runs out nothing changes; a member that rolls
    /// back takes none.
    pub fn begin(&mut self, tx: Tx) -> Result<Reply, AllocError>
        ensures ok { IfOk result (λ reply. Step resolved_forms self.old (Begin tx) (reply_seen reply) self.new) }
        ensures err { OnErr result (self.new ≡ self.old) }
        ensures rolls_back { (member : Member) → active_member self.old tx ≡ Some member
            → next_of self.old member ≡ RollsBack → IsOk result }
        ensures legal { IsLegal (book_of self.new) }
    {
        resolved_runs_are_legal();
        steps_go_on::<FormFault>();
        begin(&mut self.store, tx)
    }

    /// The member of a number, where nothing keeps it from what comes next; or why a begin of it is refused, which
    /// changes nothing. No reply is made.
    pub fn free_member(&self, tx: Tx) -> Result<FreeMember, BeginRefusal>
        ensures number { IfOk result (λ found. found.tx ≡ tx) }
        ensures free { IfOk result (IsFreeMember self.now) }
        ensures ready { IfOk result (λ found. (turn : Next) × (standing self.now found.tx ≡ Some (Ready turn))) }
        ensures refused { IfErr result (λ refusal.
            Step resolved_forms self.now (Begin tx) (begin_refusal_seen refusal) self.now) }
    {
        transactions_stand_once::<FormFault>();
        free_member(&self.store, tx)
    }

    /// What a free member begins next: a statement, COMMIT or ROLLBACK. The caller has found the member free, and made
    /// no event since.
    pub fn next_turn(&self, found: FreeMember) -> Turn
        requires { IsFreeMember self.now found }
        ensures { standing self.now found.tx ≡ Some (Ready (turn_seen result)) }
    {
        transactions_stand_once::<FormFault>();
        next_turn(&self.store, found)
    }

    /// What [`Core::begin`] does, for a caller who has found the member free, and made no event since. Neither the
    /// member nor who blocks it is looked up again.
    pub fn begin_free(&mut self, found: FreeMember) -> Result<Reply, AllocError>
        requires { IsFreeMember self.old found }
        ensures ok { IfOk result (λ reply. Step resolved_forms self.old (Begin found.tx) (reply_seen reply) self.new) }
        ensures err { OnErr result (self.new ≡ self.old) }
        ensures rolls_back { (member : Member) → active_member self.old found.tx ≡ Some member
            → next_of self.old member ≡ RollsBack → IsOk result }
        ensures legal { IsLegal (book_of self.new) }
    {
        resolved_runs_are_legal();
        steps_go_on::<FormFault>();
        begin_free(&mut self.store, found)
    }

    /// Takes the result of one statement. Where its job isn't lent any more it is stale, and comes back. Else the
    /// member has the answer; or the statement failed, and the member's group is rolled back, which takes no memory.
    /// Where memory runs out the result comes back.
    pub fn finish(&mut self, done: Done) -> Result<Reply, AllocFailed<Done>>
        ensures ok { IfOk result (λ reply. Step resolved_forms self.old (Finish done) (reply_seen reply) self.new) }
        ensures err { OnErr result (self.new ≡ self.old) }
        ensures returned { IfErr result (λ refused. refused.value ≡ done) }
        ensures failure { (failure : Failure) → done.outcome ≡ jobs.Fault failure → IsOk result }
        ensures legal { IsLegal (book_of self.new) }
    {
        resolved_runs_are_legal();
        steps_go_on::<FormFault>();
        finish(&mut self.store, done)
    }

    /// What [`Core::finish`] does, for a caller who knows that just this job is lent, as whoever hands a result in
    /// before anything else happens does. Tables aren't compared, so it takes no longer where they are large.
    pub fn finish_at_once(&mut self, done: Done) -> Result<Reply, AllocFailed<Done>>
        requires { self.old.lent ≡ done.job ∷ [] }
        ensures ok { IfOk result (λ reply. Step resolved_forms self.old (Finish done) (reply_seen reply) self.new) }
        ensures err { OnErr result (self.new ≡ self.old) }
        ensures returned { IfErr result (λ refused. refused.value ≡ done) }
        ensures failure { (failure : Failure) → done.outcome ≡ jobs.Fault failure → IsOk result }
        ensures legal { IsLegal (book_of self.new) }
    {
        resolved_runs_are_legal();
        steps_go_on::<FormFault>();
        finish_at(&mut self.store, 0, done)
    }

    /// What [`Core::finish`] does, for a caller who knows at which index of the lent jobs, counted from 0, the result's
    /// own stands. No tables are compared.
    pub fn finish_at(&mut self, index: usize, done: Done) -> Result<Reply, AllocFailed<Done>>
        requires { slice_get self.old.lent index ≡ Some done.job }
        ensures ok { IfOk result (λ reply. Step resolved_forms self.old (Finish done) (reply_seen reply) self.new) }
        ensures err { OnErr result (self.new ≡ self.old) }
        ensures returned { IfErr result (λ refused. refused.value ≡ done) }
        ensures failure { (failure : Failure) → done.outcome ≡ jobs.Fault failure → IsOk result }
        ensures legal { IsLegal (book_of self.new) }
    {
        resolved_runs_are_legal();
        steps_go_on::<FormFault>();
        finish_at(&mut self.store, index, done)
    }

    /// Of the components that weren't tried and have no job lent, lends the job of the one with the least first member.
    /// If there is none, nothing is lent.
    pub fn pick(&mut self) -> Result<Reply, AllocError>
        ensures ok { IfOk result (λ reply. Step resolved_forms self.old Pick (reply_seen reply) self.new) }
        ensures err { OnErr result (self.new ≡ self.old) }
        ensures legal { IsLegal (book_of self.new) }
    {
        resolved_runs_are_legal();
        steps_go_on::<FormFault>();
        pick(&mut self.store)
    }

    /// Takes the result of a joint job: its members have their answers and are of one group, or there is no choice, and
    /// their statements were tried. A result is stale, and comes back, where its job isn't lent or its statements are
    /// no component now. Where memory runs out it comes back too.
    pub fn join_answer(&mut self, done: Done) -> Result<Reply, AllocFailed<Done>>
        ensures ok { IfOk result (λ reply.
            Step resolved_forms self.old (JoinAnswer done) (reply_seen reply) self.new) }
        ensures err { OnErr result (self.new ≡ self.old) }
        ensures returned { IfErr result (λ refused. refused.value ≡ done) }
        ensures legal { IsLegal (book_of self.new) }
    {
        resolved_runs_are_legal();
        steps_go_on::<FormFault>();
        join_answer(&mut self.store, done)
    }

    /// What [`Core::join_answer`] does, for a caller who knows that just this job is lent, and that its result is
    /// outstanding, as whoever hands it in before anything else happens does. Tables aren't compared, and the component
    /// isn't sought again.
    pub fn join_answer_at_once(&mut self, done: Done) -> Result<Reply, AllocFailed<Done>>
        requires alone { self.old.lent ≡ done.job ∷ [] }
        requires outstanding { IsOutstandingJoint self.old done }
        ensures ok { IfOk result (λ reply.
            Step resolved_forms self.old (JoinAnswer done) (reply_seen reply) self.new) }
        ensures err { OnErr result (self.new ≡ self.old) }
        ensures returned { IfErr result (λ refused. refused.value ≡ done) }
        ensures legal { IsLegal (book_of self.new) }
    {
        resolved_runs_are_legal();
        steps_go_on::<FormFault>();
        join_answer_at_once(&mut self.store, done)
    }

    /// What [`Core::join_answer`] does, for a caller who knows at which index of the lent jobs, counted from 0, the
    /// result's own stands. No tables are compared.
    pub fn join_answer_at(&mut self, index: usize, done: Done) -> Result<Reply, AllocFailed<Done>>
        requires { slice_get self.old.lent index ≡ Some done.job }
        ensures ok { IfOk result (λ reply.
            Step resolved_forms self.old (JoinAnswer done) (reply_seen reply) self.new) }
        ensures err { OnErr result (self.new ≡ self.old) }
        ensures returned { IfErr result (λ refused. refused.value ≡ done) }
        ensures legal { IsLegal (book_of self.new) }
    {
        resolved_runs_are_legal();
        steps_go_on::<FormFault>();
        join_answer_at(&mut self.store, index, done)
    }

    /// Rolls back the group of the first member of a deadlock, the greatest transaction that stands in any, where there
    /// is one. It takes no memory.
    pub fn break_cycle(&mut self) -> Reply
        ensures step { Step resolved_forms self.old BreakCycle (reply_seen result) self.new }
        ensures legal { IsLegal (book_of self.new) }
    {
        resolved_runs_are_legal();
        steps_go_on::<FormFault>();
        break_cycle(&mut self.store)
    }

    /// Ends the run where it is quiet: every group that is left is rolled back. Else it answers why the run can't end
    /// yet. Refused where no run is on.
    pub fn end_run(&mut self) -> Result<Reply, AllocError>
        ensures ok { IfOk result (λ reply. Step resolved_forms self.old EndRun (reply_seen reply) self.new) }
        ensures err { OnErr result (self.new ≡ self.old) }
        ensures legal { IsLegal (book_of self.new) }
    {
        resolved_runs_are_legal();
        steps_go_on::<FormFault>();
        end_run(&mut self.store)
    }

    /// Lends no job any more, whoever has one. It takes no memory.
    pub fn recall(&mut self) -> Reply
        ensures step { Step resolved_forms self.old Recall (reply_seen result) self.new }
        ensures legal { IsLegal (book_of self.new) }
    {
        resolved_runs_are_legal();
        steps_go_on::<FormFault>();
        recall(&mut self.store);
        Reply::Recalled
    }

    /// The book, where no run is on and nobody waits for one; else, and where memory runs out, the core comes back.
    pub fn close(self) -> Result<Book<Sequence<NamedTable>>, NotClosed>
        ensures book { IfOk result (λ book. book_seen book ≡ book_of self) }
        ensures finished { IfOk result (λ book.
            IsFinishedBook resolved_forms self.opening (scripts_of self) (book_seen book)) }
        ensures legal { IfOk result (λ book. IsLegal (book_seen book)) }
        ensures done { OnOk result (CanClose self) }
        ensures returned { IfErr result (λ refused. refused.core ≡ self) }
        ensures not_done { IfErr result (λ refused. (fault : NotDone)
            → refused.refusal ≡ Fault fault
            → ¬ CanClose self) }
    {
        // Laws: the tables are settled where no run is on, and the book is finished and legal.
        reached_states_are_tidy::<FormFault>();
        closing_gives_the_book::<FormFault>();
        resolved_runs_are_legal();
        if can_close(&self.store) {
            match book_parts(&self.store) {
                Ok(parts) => {
                    let Core { store } = self;
                    Ok(book(store, parts))
                }
                Err(AllocError) => Err(NotClosed {
                    core: self,
                    refusal: Refusal::Memory,
                }),
            }
        } else {
            Err(NotClosed {
                core: self,
                refusal: Refusal::Fault(NotDone),
            })
        }
    }

    /// A law, which does nothing: events led to the state from its opening's own, the opening has no fault of form, and
    /// each script asks for one run at least.
    pub fn is_reached(&self)
        ensures reached { IsReached resolved_forms self.now }
        ensures formed { opening_fault self.now.opening ≡ None }
        ensures asks { AllByRecursion AsksForRun self.now.submitted }
    {
        self.store.asks_for_runs();
    }

    /// Whether a run is on.
    pub fn running(&self) -> bool
        ensures { result ≡ self.now.running }
    {
        self.store.running
    }

    /// The members of the run, by number.
    pub fn members(&self) -> Members
        ensures { result ≡ running_members self.now }
    {
        lookup::members(&self.store)
    }

    /// The group of a member, by number; nobody where it is no member.
    pub fn group(&self, tx: Tx) -> Members
        ensures { result ≡ group_of self.now tx }
    {
        lookup::group(&self.store, tx)
    }

    /// The answers of a member's statements so far; none where it is no member.
    pub fn answers(&self, tx: Tx) -> &[Answer]
        ensures { result.now ≡ answers_of self.now tx }
    {
        lookup::answers(&self.store, tx)
    }

    /// The transaction at a place of the dormant list, from 1, and in how many runs it was.
    pub fn dormant(&self, place: usize) -> Option<&Entrant>
        ensures { option_copied result ≡ dormant_at self.now place }
    {
        lookup::dormant(&self.store, place)
    }

    /// The journal's entry of a number, from 1.
    pub fn entry(&self, number: usize) -> Option<&Entry>
        ensures { option_copied result ≡ entry_at self.now number }
    {
        lookup::entry(&self.store, number)
    }

    /// The journal, in order of the commits.
    pub fn journal(&self) -> &[Entry]
        ensures { result.now ≡ self.now.journal }
    {
        self.store.journal.as_slice()
    }

    /// The opening.
    pub fn opening(&self) -> &Opening
        ensures { result.now ≡ self.now.opening }
    {
        &self.store.opening
    }

    /// How many jobs are lent.
    pub fn lent_count(&self) -> usize
        ensures { result ≡ length self.now.lent }
    {
        self.store.lent.len()
    }

    /// The index of a job among those that are lent, counted from 0; None where it isn't lent. Jobs are compared in
    /// everything, their tables row by row.
    pub fn lent_index(&self, job: &Job) -> Option<usize>
        ensures some { IfSome result (λ index. slice_get self.now.lent index ≡ Some job.now) }
        ensures none { IsNone result → Contains self.now.lent job.now → ⊥ }
    {
        self.store.lent.find(job)
    }

    /// How many scripts were submitted.
    pub fn submitted(&self) -> usize
        ensures { result ≡ length self.now.submitted }
    {
        self.store.submitted.len()
    }

    /// The script of a transaction, as it was submitted.
    pub fn script(&self, tx: Tx) -> Option<&Script>
        ensures { option_copied result ≡ numbered (scripts_of self.now) tx }
    {
        lookup::script(&self.store, tx)
    }

    /// The table of a name as it stands, where one is declared.
    pub fn table(&self, name: &Name) -> Option<&Table>
        ensures rows { option_map (λ table. table.now.rows) result ≡ present_rows self.now name.now }
        ensures kinds { option_map (λ table. table.now.kinds) result ≡ kinds_of_table self.now.opening name.now }
    {
        lookup::table(&self.store, name)
    }

    /// How many tables there are.
    pub fn table_count(&self) -> usize
        ensures declared { result ≡ length self.now.opening.tables }
        ensures settled { result ≡ length (settled self.now) }
    {
        lookup::table_count(&self.store)
    }

    /// The table of a number, counted from 0, as it stood before the first change of it by a member, else as it stands,
    /// where there is one.
    pub fn settled_table(&self, number: usize) -> Option<&Arc<Table>>
        ensures rows { option_map (λ table. rows_of (arc_value table.now)) result
            ≡ slice_get (settled self.now) number }
        ensures kinds { option_map (λ table. kinds_of (arc_value table.now)) result
            ≡ slice_get (kinds_declared self.now.opening.tables) number }
    {
        lookup::settled_table(&self.store, number)
    }

    /// Where a transaction stands; nowhere where no script has its number.
    pub fn standing(&self, tx: Tx) -> Option<Standing>
        ensures { option_map standing_seen result ≡ standing self.now tx }
    {
        standing_of(&self.store, tx)
    }

    /// Why the member of a number can't move now: what a begin of it would be refused for, and where it stands then.
    /// None where a begin would get on. Only a member at an entangled statement that isn't posted takes memory.
    pub fn obstacle(&self, tx: Tx) -> Result<Option<Obstacle>, AllocError>
        ensures { IfOk result (IsObstacle self.now tx) }
    {
        obstacle_of(&self.store, tx)
    }

    /// The posted statement of a transaction, with its host variables' values; none where it has posted none.
    pub fn posted(&self, tx: Tx) -> Option<&Posted>
        ensures { MatchOption result (HasNoneOf (pool self.now) tx) (λ query. IsOf (pool self.now) tx query.now) }
    {
        lookup::posted(&self.store, tx)
    }

    /// The table on which what a member's next statement asks for is in conflict with what another member holds, and
    /// in which modes; none where nothing is.
    pub fn conflict(&self, asker: Tx, holder: Tx) -> Option<Conflict>
        ensures { IsBetween self.now asker holder result }
    {
        conflict_between(&self.store, asker, holder)
    }
}
