//! Who rests, and who is woken.
ghost use Rattle.std.specs.Prelude.{◌≡◌};
ghost use Rattle.ent_room.specs.Acts.{OnlyShifts};

use crate::law::acts_go_on;
use crate::prospects::rests;
use crate::room::Room;
use crate::work::Work;
use ent_waiting::{Rank, Ticket};
use std::alloc::AllocError;

/// So many tried meetings are told of changes before the next root has its turn.
const MOST_VISITS: usize = 64;

impl Room {
    /// Who waits and is in no batch leaves its queue.
    pub(crate) fn rest(&mut self, ticket: u64) -> Result<(), AllocError>
        ensures shifts { OnlyShifts self.old self.new }
    {
        self.admission.rest(Ticket::new(ticket))?;
        Ok(())
    }

    /// Who waits and is in no batch comes into the queue of this rank.
    pub(crate) fn queue(&mut self, ticket: u64, rank: Rank) -> Result<(), AllocError>
        ensures shifts { OnlyShifts self.old self.new }
    {
        self.admission.queue(Ticket::new(ticket), rank)?;
        Ok(())
    }

    /// Somebody comes to those who have turns, behind them all.
    fn line_up(&mut self, ticket: u64, rank: Rank) -> Result<(), AllocError>
        ensures same { self.new ≡ self.old }
    {
        if rank == Rank::Newcomer {
            self.prospects.order.come(ticket)
        } else {
            self.prospects.grow_old(ticket)
        }
    }

    /// Something changed for somebody: who rests comes into the queue of this rank.
    pub(crate) fn wake(&mut self, ticket: u64, rank: Rank) -> Result<(), AllocError>
        ensures shifts { OnlyShifts self.old self.new }
    {
        acts_go_on();
        if rests(self.admission.list(), ticket) {
            self.line_up(ticket, rank)?;
            self.queue(ticket, rank)?;
        }
        self.prospects.change(ticket);
        Ok(())
    }

    /// Something changed for each of these.
    fn wake_all(&mut self, tickets: &[u64]) -> Result<(), AllocError>
        ensures shifts { OnlyShifts self.old self.new }
    {
        acts_go_on();
        for ticket in tickets {
            self.wake(*ticket, Rank::Woken)?;
        }
        Ok(())
    }

    /// A root tells somebody, who demands what it offers, that it came.
    pub(crate) fn tell(&mut self, root: u64, ticket: u64) -> Result<(), AllocError>
        ensures shifts { OnlyShifts self.old self.new }
    {
        self.wake(ticket, Rank::Newcomer)?;
        self.prospects.has_told(root, ticket);
        Ok(())
    }

    /// The next tried meeting is told that a table changed, which wakes its members; false if all were told.
    fn tell_change(&mut self, work: &mut Work) -> Result<bool, AllocError>
        ensures shifts { OnlyShifts self.old self.new }
    {
        acts_go_on();
        let Some(visit) = self.prospects.clocks.visit() else {
            return Ok(false);
        };
        let members = self.prospects.visited(self.alloc, visit)?;
        self.wake_all(members.as_slice())?;
        work.compare(members.len().saturating_add(1));
        self.prospects.end_visit(visit, !members.is_empty());
        Ok(true)
    }

    /// Tried meetings are told that tables changed, as many as may be before the next turn.
    pub(crate) fn tell_changes(&mut self, work: &mut Work) -> Result<(), AllocError>
        ensures shifts { OnlyShifts self.old self.new }
    {
        acts_go_on();
        'visits: for _ in 0..MOST_VISITS {
            if !self.tell_change(work)? {
                return Ok(());
            }
        }
        Ok(())
    }

    /// Those go on who rest since a bound was reached: each may try as many meetings again. It has them take their
    /// turns; the next steps make them.
    pub fn further(&mut self) -> Result<(), AllocError>
        ensures shifts { OnlyShifts self.old self.new }
    {
        acts_go_on();
        let mut from = 0;
        'resting: while let Some(ticket) = self.prospects.next_cut(from) {
            self.resume(ticket)?;
            match ticket.checked_add(1) {
                Some(next) => from = next,
                None => return Ok(()),
            }
        }
        Ok(())
    }

    /// Somebody goes on who rests since a bound was reached.
    fn resume(&mut self, ticket: u64) -> Result<(), AllocError>
        ensures shifts { OnlyShifts self.old self.new }
    {
        acts_go_on();
        if rests(self.admission.list(), ticket) {
            self.line_up(ticket, Rank::Woken)?;
            self.queue(ticket, Rank::Woken)?;
        }
        self.prospects.go_further(ticket);
        Ok(())
    }
}
