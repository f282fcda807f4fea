//! Turns of roots.
ghost use Rattle.std.specs.Prelude.{◌≡◌, OnOk};
ghost use Rattle.ent_admission.specs.Admission.{IsAtRest};
ghost use Rattle.ent_room.specs.Acts.{Advances, OnlyShifts};

use crate::law::acts_go_on;
use crate::room::Room;
use crate::root::Move;
use crate::step::NotStepped;
use crate::work::{LEAST_OF_TURN, MOST_OF_TURN, RUN, Work};
use ent_value::Refusal;
use ent_waiting::{Rank, Ticket, WaitingPlace};
use std::alloc::AllocError;

/// Where a root stands after its turn.
#[derive(Clone, Copy)]
enum After {
    /// It rests until something changes, or since a bound was reached.
    Rest { is_cut: bool },
    /// It stays a newcomer, behind all others.
    Newcomer,
    /// It comes to the old ones.
    Old,
    /// It comes to the old ones, behind this one.
    Behind(u64),
}

impl Room {
    /// Whether somebody stands in the queue of newcomers.
    fn is_newcomer(&self, ticket: u64) -> bool {
        match self.admission.list().waiter(Ticket::new(ticket)) {
            Some(waiter) => waiter.place == WaitingPlace::Queued(Rank::Newcomer),
            None => false,
        }
    }

    /// Whether somebody waits.
    fn waits(&self, ticket: u64) -> bool {
        self.admission.list().waiter(Ticket::new(ticket)).is_some()
    }

    /// What a root does next.
    fn next_move(&mut self, root: u64, work: &mut Work) -> Result<Move, AllocError>
        ensures same { self.new ≡ self.old }
    {
        self.prospects.next_move(
            self.alloc,
            self.admission.index(),
            self.admission.list(),
            root,
            work,
        )
    }

    /// What a root does next, once it has told others that it came, as far as its work goes.
    fn pursue(&mut self, root: u64, work: &mut Work) -> Result<Move, AllocError>
        ensures shifts { OnlyShifts self.old self.new }
    {
        acts_go_on();
        'moves: for _ in 0..=MOST_OF_TURN {
            let next = self.next_move(root, work)?;
            let Some(ticket) = next.told() else {
                return Ok(next);
            };
            self.tell(root, ticket)?;
        }
        Ok(Move::Stop)
    }

    /// Makes the run that a root chose, if its move is one; whether it was made.
    fn run_move(
        &mut self,
        root: u64,
        next: &Move,
        work: &mut Work,
    ) -> Result<bool, Refusal<NotStepped>>
        requires at_rest { IsAtRest self.old.admission }
        ensures advances { Advances self.old self.new }
        ensures at_rest { OnOk result (IsAtRest self.new.admission) }
    {
        acts_go_on();
        let Move::Run(chosen) = next else {
            return Ok(false);
        };
        let members = chosen.members.as_slice();
        let batch = self.meeting(members, if chosen.is_plain { Some(root) } else { None })?;
        work.charge(RUN.saturating_mul(members.len() as u64));
        self.make(batch)
    }

    /// Where a root stands after a move, who was a newcomer or wasn't.
    fn after(&self, next: &Move, is_newcomer: bool, was_told: bool) -> After {
        match next {
            Move::Rest { is_cut } => After::Rest { is_cut: *is_cut },
            Move::GiveWay(first) if is_newcomer && self.is_newcomer(*first) => After::Newcomer,
            Move::GiveWay(first) => After::Behind(*first),
            Move::Tell(_) | Move::Told | Move::Stop if is_newcomer && !was_told => After::Newcomer,
            Move::Tell(_) | Move::Told | Move::Stop | Move::Run(_) => After::Old,
        }
    }

    /// A root comes to the old ones.
    fn grow_old(&mut self, root: u64) -> Result<(), AllocError>
        ensures shifts { OnlyShifts self.old self.new }
    {
        self.prospects.grow_old(root)?;
        self.queue(root, Rank::Woken)
    }

    /// A root that still waits comes to where it stands after its turn.
    fn stand(&mut self, root: u64, after: After) -> Result<(), AllocError>
        ensures shifts { OnlyShifts self.old self.new }
    {
        acts_go_on();
        match after {
            After::Rest { is_cut } => {
                if is_cut {
                    self.prospects.cut(root)?;
                }
                self.rest(root)
            }
            After::Newcomer => {
                self.prospects.order.come(root)?;
                Ok(())
            }
            After::Old => self.grow_old(root),
            After::Behind(first) => {
                self.prospects.give_way(root, first);
                self.grow_old(root)
            }
        }
    }

    /// The turn of a root; whether a run was made.
    pub(crate) fn take_turn(
        &mut self,
        root: u64,
        spent: &mut Work,
    ) -> Result<bool, Refusal<NotStepped>>
        requires at_rest { IsAtRest self.old.admission }
        ensures advances { Advances self.old self.new }
        ensures at_rest { OnOk result (IsAtRest self.new.admission) }
    {
        acts_go_on();
        let is_newcomer = self.is_newcomer(root);
        let was_told = self.prospects.is_told(root);
        let mut work = Work::new(MOST_OF_TURN);
        let next = self.pursue(root, &mut work)?;
        let ran = self.run_move(root, &next, &mut work)?;
        spent.charge(work.spent().max(LEAST_OF_TURN));
        self.end_turn(root, &next, is_newcomer, was_told, work.spent())?;
        Ok(ran)
    }

    /// The turn of a root is over.
    fn end_turn(
        &mut self,
        root: u64,
        next: &Move,
        is_newcomer: bool,
        was_told: bool,
        cost: u64,
    ) -> Result<(), AllocError>
        ensures shifts { OnlyShifts self.old self.new }
    {
        acts_go_on();
        self.prospects.order.alternate();
        self.prospects.charge(root, cost, !is_newcomer);
        if !self.waits(root) {
            return Ok(());
        }
        let after = self.after(next, is_newcomer, was_told);
        self.stand(root, after)
    }
}
