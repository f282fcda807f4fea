//! How a ticket stands.
ghost use Rattle.std.specs.Prelude.{◌≡◌, Some, false};
ghost use Rattle.ent_admission.specs.Admission.{is_in_batch};
ghost use Rattle.ent_room.specs.State.{StandsAs, submissions_of};
ghost use Rattle.ent_waiting.specs.WaitingList.{waiter_of};
ghost use Rattle.ent_waiting.specs.declared.waiter.WaitingPlace.TheVariants.{Resting};

use crate::room::Room;
use ent_meetings::{Lack, MOST_LOOKS, unoffered};
use ent_waiting::{Ending, Submission, Ticket, Waiter, WaitingPlace};

/// How a ticket stands.
#[derive(Clone, Copy, Debug, PartialEq, Eq)]
pub enum State {
    /// It waits, and was in so many batches that count.
    Waits { batches: u64 },
    /// It waits, and nobody who waits may offer what it demands. It says which of its demands, counted from 0.
    Lonely { demand: usize },
    /// It waits, and no meeting of it was found among those who wait.
    NoMeeting,
    /// It waits, and a bound was reached: there may be more meetings of it. It goes on with its next change, or when
    /// [`Room::further`] is called.
    Cut,
    /// It is in the batch that is on.
    InBatch,
    /// It waits no more.
    Ended(Ending),
    /// The ticket was never given out, or how it ended isn't kept any more.
    Unknown,
}

impl Room {
    /// How one stands that rests.
    fn resting(&self, ticket: Ticket, waiter: &Waiter) -> State
        requires waits { waiter_of self.now.admission.list ticket ≡ Some waiter.now }
        requires rests { waiter.now.place ≡ Resting }
        requires no_batch { is_in_batch self.now.admission ticket ≡ false }
        ensures { StandsAs self.now.admission ticket result }
    {
        let index = self.admission.index();
        let Some(party) = index.party(ticket.number()) else {
            return State::NoMeeting;
        };
        let mut looks = MOST_LOOKS;
        match unoffered(index, party, &mut looks) {
            Lack::Unoffered(demand) => State::Lonely { demand },
            _ if self.prospects.is_cut(ticket.number()) => State::Cut,
            _ if self.prospects.has_tried(ticket.number()) => State::Waits {
                batches: waiter.batches,
            },
            _ => State::NoMeeting,
        }
    }

    /// How one stands that waits.
    fn waiting(&self, ticket: Ticket, waiter: &Waiter) -> State
        requires waits { waiter_of self.now.admission.list ticket ≡ Some waiter.now }
        ensures { StandsAs self.now.admission ticket result }
    {
        if self.admission.is_in_batch(ticket) {
            return State::InBatch;
        }
        match waiter.place {
            WaitingPlace::Resting => self.resting(ticket, waiter),
            _ => State::Waits {
                batches: waiter.batches,
            },
        }
    }

    /// How a ticket stands.
    pub fn state(&self, ticket: Ticket) -> State
        ensures { StandsAs self.now.admission ticket result }
    {
        if let Some(waiter) = self.admission.list().waiter(ticket) {
            return self.waiting(ticket, waiter);
        }
        match self.admission.list().ended(ticket) {
            Some(ended) => State::Ended(ended.ending),
            None => State::Unknown,
        }
    }

    /// The transactions that the script of a ticket became, in order: the epoch of each, and its number there. The
    /// present one comes in when it is over.
    pub fn submissions(&self, ticket: Ticket) -> &[Submission]
        ensures { result.now ≡ submissions_of self.now.admission.list ticket }
    {
        if let Some(waiter) = self.admission.list().waiter(ticket) {
            return waiter.submissions.as_slice();
        }
        match self.admission.list().ended(ticket) {
            Some(ended) => ended.submissions.as_slice(),
            None => &[],
        }
    }
}
