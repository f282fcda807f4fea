//! Those who may demand what nobody may offer any more.
ghost use Rattle.std.specs.Prelude.{◌≤◌, ◌<◌, OnOk, OnSome};
ghost use Rattle.ent_arrange.specs.Doubts.{work_of};

use ent_meetings::{Index, Lack, Next, Pattern, unoffered};
use std::alloc::{AllocError, Global};

/// How many are looked at to find who is doubtful, and who has no hope.
const MOST_DOUBTFUL_LOOKS: usize = 262_144;

/// Tickets of those of an index who may demand what nobody of it may offer.
#[derive(Drop)]
pub(crate) struct Doubts {
    tickets: Vec<u64>,
    /// How many may still be looked at. Where none may, nobody else gets doubtful, and nobody is known to have no hope.
    looks: usize,
}

impl Doubts {
    pub(crate) fn new(alloc: Global) -> Self {
        Doubts {
            tickets: Vec::new(alloc),
            looks: MOST_DOUBTFUL_LOOKS,
        }
    }

    /// Who waits under a ticket gets doubtful.
    pub(crate) fn add(&mut self, ticket: u64) -> Result<(), AllocError> {
        Ok(self.tickets.push(ticket)?)
    }

    /// Those get doubtful who demand what an offer may meet.
    pub(crate) fn add_demanders(&mut self, index: &Index, offer: &Pattern) -> Result<(), AllocError>
        ensures work { OnOk result (work_of self.new ≤ work_of self.old) }
    {
        let mut last = None;
        while self.looks > 0 {
            match index.next_demander(offer, last, &mut self.looks) {
                Next::Found(ticket) => {
                    self.tickets.push(ticket)?;
                    last = Some(ticket);
                }
                Next::Nobody | Next::Stopped(_) => return Ok(()),
            }
        }
        Ok(())
    }

    /// Another one who is doubtful.
    pub(crate) fn pop(&mut self) -> Option<u64>
        ensures work { OnSome result (work_of self.new < work_of self.old) }
    {
        self.tickets.pop()
    }

    /// Whether who waits under a ticket demands what nobody may offer, as far as that was looked at.
    pub(crate) fn has_no_hope(&mut self, index: &Index, ticket: u64) -> bool
        ensures work { work_of self.new ≤ work_of self.old }
    {
        match index.party(ticket) {
            Some(party) => matches!(unoffered(index, party, &mut self.looks), Lack::Unoffered(_)),
            None => false,
        }
    }
}
