//! The members of a run.
ghost use Rattle.std.specs.Prelude.{◌≡◌, ℕ, ◌+◌, ◌<◌, ◌≤◌, ◌==◌, ◌++◌, [], length, map, filter, nat_eq, not, true};
ghost use Rattle.std.specs.Prelude.{false, List, IfOk, OnOk, OnErr, None, Some, IfSome, IsSome, IsNone, IsTrue};
ghost use Rattle.std.specs.Prelude.{◌↔◌, Contains, slice_index_or};
ghost use Rattle.std.specs.List.{IsDistinct, list_any};
ghost use Rattle.std.specs.Vec.{vec_capacity};
ghost use Rattle.ent_semantics.specs.Pool.{Posted};
ghost use Rattle.ent_protocol.specs.Begin.{holding};
ghost use Rattle.ent_protocol.specs.Commit.{committing_members, entry_of, is_ready};
ghost use Rattle.ent_protocol.specs.Finish.{stepped};
ghost use Rattle.ent_protocol.specs.Lookup.{member_of, running_members};
ghost use Rattle.ent_protocol.specs.Member.{active_member, is_of, is_prepared};
ghost use Rattle.ent_protocol.specs.Rollback.{group_members, group_numbers};
ghost use Rattle.ent_protocol.specs.Run.{fresh};
ghost use Rattle.ent_protocol.specs.State.{Member as Seen, State, by_number, members};
ghost use Rattle.ent_protocol.specs.Uses.{blocker, statement_uses};
ghost use Rattle.ent_semantics.specs.Entangled.{Valuation};
ghost use Rattle.ent_members.specs.Answered.{answer_tx};
ghost use Rattle.ent_run.specs.Answered.{AnswerTogether, IsJoining, answered_from, member_answers};
ghost use Rattle.ent_members.specs.Changes.{posting, stepping};
ghost use Rattle.ent_run.specs.Joined.{JoinGroups, labels_in};
ghost use Rattle.ent_members.specs.RunAttempts.{numbers_in, run_attempt_of, run_attempts_in};
ghost use Rattle.ent_lock.specs.declared.mode.Mode.{Mode};
ghost use Rattle.ent_run.specs.Grouped.{IsLabelled};
ghost use Rattle.ent_run.specs.Locks.{IsHeld, use_of};
ghost use Rattle.ent_run.specs.Moves.{Leave, Prepares, is_not_of, is_of_another};
ghost use Rattle.ent_run.specs.Passing.{TellsPassed, passes};
ghost use Rattle.ent_run.specs.Places.{Changes, IsAt, found};
ghost use Rattle.ent_members.specs.Order.{tx_of};
ghost use Rattle.ent_run.specs.Run.{with_run};
ghost use Rattle.ent_run.specs.Waits.{is_awaited};

use crate::answer::{answer_each, numbers_of};
use crate::asker::Asker;
use crate::gather::{gather, gather_by_number};
use crate::groups::{
    any_labelled_among, each_alone, leave, members_of, merge_answered, remove_labelled,
};
use crate::locks::{least_in_conflict, lock};
use crate::member_slab::MemberSlab;
use crate::search::{is_among, member_by_number, member_in, member_numbers};
use crate::start::fresh_members;
use crate::waits::awaits;
use crate::{change, groups};
use ent_group::{Groups, MOST_MEMBERS, Members, Tx};
use ent_lock::{Holder, LockTable};
use ent_members::{
    Entrant, MemberAnswer, Progress, RunAttempts, RunMember, Use, exclusive_table, statement_uses,
};
use ent_semantics::{Answer, Statement};
use ent_value::{Name, Value};
use std::alloc::{AllocError, Global};
use std::marker::Model;

/// The members of a run, up to [`MOST_MEMBERS`]: those that are prepared, in the order in which they prepared, and the
/// others, which are active. A slab has what each of them has itself; the lock table alone says what they hold, and the
/// groups alone who is of one group.
#[derive(Drop)]
pub struct Run {
    alloc: Global,
    members: MemberSlab,
    locks: LockTable<usize>,
    groups: Groups,
}

impl Model for Run {
    ghost use Rattle.ent_run.specs.Grouped.{IsRunOf};
    ghost use Rattle.ent_run.specs.InRuns.{in_runs};
    ghost use Rattle.ent_run.specs.Run.{Run as Seen};

    ghost Value = { Seen };

    ghost view = { λ r. record {
      prepared = in_runs r.locks r.groups r.members.prepared;
      active = in_runs r.locks r.groups r.members.active;
    } };

    ghost invariant = { λ r. IsRunOf r.locks r.groups r.members.prepared r.members.active };
}

impl Run {
    /// No member. It takes no memory.
    pub fn new(alloc: Global) -> Self
        ensures prepared { result.prepared ≡ [] }
        ensures active { result.active ≡ [] }
    {
        Run {
            alloc,
            members: MemberSlab::new(alloc),
            locks: LockTable::new(alloc),
            groups: Groups::new(),
        }
    }

    /// The members of a run that starts: each of those who enter, in a group of its own, at its first statement.
    pub fn start(alloc: Global, entrants: &[Entrant]) -> Result<Self, AllocError>
        requires bound { length entrants.now ≤ MOST_MEMBERS }
        requires distinct { IsDistinct nat_eq (map (λ e. e.tx) entrants.now) }
        ensures prepared { IfOk result (λ run. run.prepared ≡ []) }
        ensures active { IfOk result (λ run. run.active ≡ by_number tx_of (map fresh entrants.now)) }
    {
        let members = fresh_members(alloc, entrants)?;
        Ok(Run {
            alloc,
            members,
            locks: LockTable::new(alloc),
            groups: each_alone(entrants),
        })
    }

    pub fn len(&self) -> usize
        ensures len { result ≡ length self.now.prepared + length self.now.active }
        ensures bound { length self.now.prepared + length self.now.active ≤ MOST_MEMBERS }
    {
        self.members.prepared().len() + self.members.active().len()
    }

    pub fn is_empty(&self) -> bool
        ensures { result ≡ (length self.now.prepared + length self.now.active == 0) }
    {
        self.len() == 0
    }

    /// How many members are prepared.
    pub fn prepared_len(&self) -> usize
        ensures len { result ≡ length self.now.prepared }
        ensures bound { length self.now.prepared ≤ MOST_MEMBERS }
    {
        self.members.prepared().len()
    }

    /// How many members aren't prepared. No two of them have one number.
    pub fn active_len(&self) -> usize
        ensures len { result ≡ length self.now.active }
        ensures bound { length self.now.active ≤ MOST_MEMBERS }
        ensures distinct { IsDistinct nat_eq (map tx_of self.now.active) }
    {
        self.members.active().len()
    }

    /// The member of a number that isn't prepared.
    pub fn active_member(&self, tx: Tx) -> Option<RunMember<'_>>
        ensures { (s : State) → result ≡ active_member (with_run self.now s) tx }
    {
        match member_by_number(&self.members.active(), tx) {
            Some(own) => Some(RunMember::new(own, &self.locks, &self.groups)),
            None => None,
        }
    }

    /// The place of the member of a number, among those that aren't prepared.
    pub fn active_place(&self, tx: Tx) -> Option<usize>
        ensures some { IfSome result (IsAt self.now.active tx) }
        ensures none { IsNone result → (s : State) → active_member (with_run self.now s) tx ≡ None }
    {
        self.members.active().place_by_number(tx)
    }

    /// The member at a place of those that aren't prepared.
    pub fn at(&self, place: usize) -> RunMember<'_>
        requires { place < length self.now.active }
        ensures { (d : Seen) → result ≡ slice_index_or self.now.active place d }
    {
        RunMember::new(self.members.active().at(place), &self.locks, &self.groups)
    }

    /// The member of a number, prepared or not.
    pub fn member(&self, tx: Tx) -> Option<RunMember<'_>>
        ensures { (s : State) → result ≡ member_of (with_run self.now s) tx }
    {
        match member_in(&self.members.prepared(), tx) {
            Some(own) => Some(RunMember::new(own, &self.locks, &self.groups)),
            None => self.active_member(tx),
        }
    }

    /// Whether the member of a number is prepared. Then no other one has the number.
    pub fn is_prepared(&self, tx: Tx) -> bool
        ensures prepared { (s : State) → result ≡ is_prepared (with_run self.now s) tx }
        ensures apart { (s : State) → IsTrue result → active_member (with_run self.now s) tx ≡ None }
    {
        is_among(&self.members.prepared(), tx)
    }

    /// All members, by number.
    pub fn numbers(&self) -> Members
        ensures { (s : State) → result ≡ running_members (with_run self.now s) }
    {
        groups::numbers_of(self.groups.as_slice())
    }

    /// The members of the group with a label, by number.
    pub fn group_numbers(&self, group: Tx) -> Members
        ensures { (s : State) → result ≡ group_numbers (with_run self.now s) group }
    {
        members_of(&self.groups, group)
    }

    /// The label of a member's group; none where no member has the number.
    pub fn label_of(&self, tx: Tx) -> Option<Tx>
        ensures { (group : ℕ) → (result ≡ Some group) ↔ IsLabelled (self.now.prepared ++ self.now.active) tx group }
    {
        self.groups.group_of(tx)
    }

    /// The members that hold a table, and how, in no order.
    pub fn holders(&self, table: usize) -> &[Holder]
        ensures { (tx : ℕ) (mode : Mode) → Contains result.now (record { holder = tx; mode = mode })
            ↔ IsHeld (self.now.prepared ++ self.now.active) tx (use_of table mode) }
    {
        self.locks.holders(&table)
    }

    fn run_attempts(&self, group: Option<Tx>) -> RunAttempts
        ensures { result ≡ run_attempts_in group (self.now.prepared ++ self.now.active) }
    {
        let mut run_attempts = gather_by_number(&self.members.active(), &self.groups, group);
        gather(
            &self.members.prepared(),
            &self.groups,
            group,
            &mut run_attempts,
        );
        run_attempts
    }

    /// A member that asks for uses: it passes the prepared members of its group, and itself.
    fn asking(&self, asker: &RunMember) -> Asker<'_>
        ensures { TellsPassed asker.now self.now (passes result) }
    {
        Asker::new(asker, self.members.prepared(), &self.groups)
    }

    /// The least member that holds a use in conflict with one of those that a member asks for, save itself and the
    /// prepared members of its group.
    pub fn blocker(&self, asker: &RunMember, asked: &[Use]) -> Option<Tx>
        ensures { (s : State) → result ≡ blocker (with_run self.now s) asker.now asked.now }
    {
        least_in_conflict(&self.locks, asked, &self.asking(asker))
    }

    /// The same of one that asks for the uses of a statement, which are put together.
    fn uses_blocker<K>(&self, asker: &RunMember, statement: &Statement<K>) -> Option<Tx>
        ensures { (s : State) → result ≡ blocker (with_run self.now s) asker.now (statement_uses statement.now) }
    {
        self.blocker(asker, statement_uses(statement).as_slice())
    }

    /// The least member in conflict with one that asks for the uses of a statement, as [`Run::blocker`] says. What
    /// changes a table asks for one use, and needs no room for more.
    pub fn statement_blocker<K>(&self, asker: &RunMember, statement: &Statement<K>) -> Option<Tx>
        ensures { (s : State) → result ≡ blocker (with_run self.now s) asker.now (statement_uses statement.now) }
    {
        match exclusive_table(statement) {
            Some(table) => self.blocker(asker, &[Use::exclusive(table)]),
            None => self.uses_blocker(asker, statement),
        }
    }

    /// Whether a member that asks for uses would wait for another member, which isn't prepared.
    pub fn awaits(&self, asker: &RunMember, asked: &[Use], other: &RunMember) -> bool
        ensures { (s : State) → result ≡ is_awaited (with_run self.now s) asker.now asked.now other.now }
    {
        awaits(
            &self.locks,
            asked,
            &self.asking(asker),
            &self.groups,
            asker.group(),
            other,
        )
    }

    /// The member at a place of those that aren't prepared holds the uses that are asked for too. Where memory runs out
    /// nothing changes.
    pub fn hold_at(&mut self, place: usize, asked: &[Use]) -> Result<(), AllocError>
        requires { place < length self.old.active }
        ensures ok { (tx : ℕ) → IsAt self.old.active tx place
            → OnOk result (Changes (λ member. holding member asked.now) tx self.old.active self.new.active) }
        ensures prepared { self.new.prepared ≡ self.old.prepared }
        ensures err { OnErr result (self.new ≡ self.old) }
    {
        let tx = self.members.active().at(place).tx();
        lock(&mut self.locks, self.alloc, tx, asked)
    }

    /// The member at a place of those that aren't prepared holds the uses that are asked for too, and its next
    /// statement is in the pool. Where memory runs out nothing changes.
    pub fn post_at(&mut self, place: usize, asked: &[Use]) -> Result<(), AllocError>
        requires { place < length self.old.active }
        ensures ok { (tx : ℕ) → IsAt self.old.active tx place
            → OnOk result (Changes (posting asked.now) tx self.old.active self.new.active) }
        ensures prepared { self.new.prepared ≡ self.old.prepared }
        ensures err { OnErr result (self.new ≡ self.old) }
    {
        let tx = self.members.active().at(place).tx();
        lock(&mut self.locks, self.alloc, tx, asked)?;
        change::post(&mut self.members, place);
        Ok(())
    }

    /// A member that isn't prepared takes the answer of its statement, and is at the next one. Where memory runs out
    /// nothing changes.
    pub fn step(&mut self, tx: Tx, answer: Answer) -> Result<(), AllocError>
        requires { IsSome (found self.old.active tx) }
        ensures ok { OnOk result (Changes (stepped answer) tx self.old.active self.new.active) }
        ensures prepared { self.new.prepared ≡ self.old.prepared }
        ensures err { OnErr result (self.new ≡ self.old) }
    {
        change::step(&mut self.members, tx, answer)
    }

    /// A member that isn't prepared takes the answer of its statement, which binds host variables, and is at the next
    /// one. Where memory runs out nothing changes.
    pub fn step_bound(
        &mut self,
        tx: Tx,
        answer: Answer,
        bound: Vec<(Name, Value)>,
    ) -> Result<(), AllocError>
        requires { IsSome (found self.old.active tx) }
        ensures ok { OnOk result (Changes (stepping answer bound.items) tx self.old.active self.new.active) }
        ensures prepared { self.new.prepared ≡ self.old.prepared }
        ensures err { OnErr result (self.new ≡ self.old) }
    {
        change::step_bound(&mut self.members, tx, answer, bound)
    }

    /// The member at a place of those that aren't prepared is prepared, the last so far. Where memory runs out nothing
    /// changes.
    pub fn prepare_at(&mut self, place: usize) -> Result<(), AllocError>
        requires { place < length self.old.active }
        ensures ok { (tx : ℕ) → IsAt self.old.active tx place → OnOk result (Prepares tx self.old self.new) }
        ensures err { OnErr result (self.new ≡ self.old) }
    {
        self.members.prepare(place)
    }

    /// Whether every member of the group with a label is prepared.
    fn is_ready(&self, group: Tx) -> bool
        ensures { result ≡ not (list_any (is_of group) self.now.active) }
    {
        !any_labelled_among(self.groups.as_slice(), group, &self.members.active())
    }

    fn join(&mut self, numbers: &[Tx])
        ensures { JoinGroups (labels_in numbers.now (self.old.prepared ++ self.old.active)) self.old self.new }
    {
        let (prepared, active) = (self.members.prepared(), self.members.active());
        merge_answered(&mut self.groups, &prepared, &active, numbers);
    }

    fn answer_active(&mut self, given: Vec<MemberAnswer>) -> Result<(), AllocError>
        requires { IsDistinct nat_eq (map answer_tx given.items) }
        ensures ok { OnOk result (self.new.active ≡ map (answered_from given.items) self.old.active) }
        ensures prepared { self.new.prepared ≡ self.old.prepared }
        ensures err { OnErr result (self.new ≡ self.old) }
    {
        let mut given = given;
        answer_each(&mut self.members, &mut given)
    }

    /// Members that aren't prepared take a joint answer together: each its own answer and what that binds, and their
    /// groups become one. Where memory runs out nothing changes.
    pub fn answer(&mut self, given: Vec<MemberAnswer>) -> Result<(), AllocError>
        requires { IsDistinct nat_eq (map answer_tx given.items) }
        ensures ok { OnOk result (AnswerTogether given.items self.old self.new) }
        ensures joining { OnOk result ((s : State) (asked : List Posted) (groundings : List Valuation)
            → given.items ≡ member_answers asked groundings → length groundings ≡ length asked
            → IsJoining (with_run self.old s) asked groundings self.new) }
        ensures err { OnErr result (self.new ≡ self.old) }
    {
        let numbers = numbers_of(self.alloc, given.as_slice())?;
        self.answer_active(given)?;
        self.join(numbers.as_slice());
        Ok(())
    }

    /// The group with a label commits, if every member of it is prepared: its members leave the run, in the order in
    /// which they prepared, and what each had itself comes in the room that is made for them. If one isn't prepared,
    /// there is None, and nothing changes. It takes no memory.
    pub fn commit(&mut self, group: Tx, room: Vec<Progress>) -> Option<Vec<Progress>>
        requires empty { room.items ≡ [] }
        requires room { length self.old.prepared ≤ vec_capacity room }
        ensures ready { IsSome result → (s : State) → is_ready (with_run self.old s) group ≡ true }
        ensures entries { (s : State) → IfSome result (λ committed.
            map entry_of committed.items ≡ map entry_of (committing_members (with_run self.old s) group)) }
        ensures attempts { (s : State) → IfSome result (λ committed. map run_attempt_of committed.items
            ≡ map run_attempt_of (committing_members (with_run self.old s) group)) }
        ensures bound { IfSome result (λ committed. length committed.items ≤ MOST_MEMBERS) }
        ensures prepared { IsSome result → self.new.prepared ≡ filter (is_of_another group) self.old.prepared }
        ensures active { IsSome result → self.new.active ≡ self.old.active }
        ensures none { IsNone result → (s : State) → is_ready (with_run self.old s) group ≡ false }
        ensures same { IsNone result → self.new ≡ self.old }
    {
        if !self.is_ready(group) {
            return None;
        }
        let mut committed = room;
        self.members.take_group(&self.groups, group, &mut committed);
        self.locks.drop_group(&member_numbers(committed.as_slice()));
        remove_labelled(&mut self.groups, group);
        Some(committed)
    }

    /// The members of the group with a label leave the run, or all, if none is named. Tells who left, by number. It
    /// takes no memory.
    pub fn remove(&mut self, group: Option<Tx>) -> RunAttempts
        ensures group { (s : State) → IfSome group (λ label.
            result ≡ map run_attempt_of (group_members (with_run self.old s) label)) }
        ensures all { (s : State) → IsNone group →
            result ≡ map run_attempt_of (by_number tx_of (members (with_run self.old s))) }
        ensures prepared { self.new.prepared ≡ filter (is_not_of (numbers_in result)) self.old.prepared }
        ensures active { self.new.active ≡ filter (is_not_of (numbers_in result)) self.old.active }
        ensures leave { (gone : List Seen) → numbers_in result ≡ map tx_of gone → Leave gone self.old self.new }
    {
        let run_attempts = self.run_attempts(group);
        let numbers = run_attempts.numbers();
        self.members.remove(&numbers);
        self.locks.drop_group(&numbers);
        leave(&mut self.groups, group);
        run_attempts
    }
}
