//! How a ticket stands, in numbers.
ghost use Rattle.std.specs.Prelude.{◌≡◌};
ghost use Rattle.ent_c.specs.Looks.{ended_state, no_state, ticket_state};

use ent_room::State;
use ent_semantics::Failure;
use ent_waiting::{Ending, Submission as OneSubmission};

/// How a ticket stands. C calls it `struct entangle_ticket_state`, and names the kinds.
#[repr(C)]
#[derive(Clone, Copy)]
pub struct TicketState {
    /// In how many batches that count it was, where it waits; else 0.
    pub batches: u64,
    /// Which demand nobody who waits may offer, from 0, where it is lonely; else 0.
    pub demand: u64,
    /// Where it committed: the epoch; else 0.
    pub epoch: u64,
    /// Where it committed: the number of the commit in that epoch, from 1; else 0.
    pub number: u64,
    /// 0 unknown, 1 waits, 2 lonely, 3 no meeting, 4 in a batch, 5 committed, 6 rolled back, 7 failed, 8 gave up,
    /// 9 withdrawn, 10 cut.
    pub kind: u32,
    /// Where it failed: 1 or 2, as F1 or F2; else 0.
    pub failure: u32,
}

/// A state of this kind, with nothing beside it.
fn of_kind(kind: u32) -> TicketState
    ensures { result ≡ no_state kind }
{
    TicketState {
        batches: 0,
        demand: 0,
        epoch: 0,
        number: 0,
        kind,
        failure: 0,
    }
}

/// The state of one that ended.
fn ended(ending: Ending) -> TicketState
    ensures { result ≡ ended_state ending }
{
    match ending {
        Ending::Committed { epoch, number } => TicketState {
            epoch,
            number,
            ..of_kind(5)
        },
        Ending::RolledBack => of_kind(6),
        Ending::Failed(failure) => TicketState {
            failure: match failure {
                Failure::Overflow => 1,
                Failure::TableFull => 2,
            },
            ..of_kind(7)
        },
        Ending::GaveUp => of_kind(8),
        Ending::Withdrawn => of_kind(9),
    }
}

impl TicketState {
    /// How a ticket stands.
    pub(crate) fn of(state: State) -> Self
        ensures { result ≡ ticket_state state }
    {
        match state {
            State::Unknown => of_kind(0),
            State::Waits { batches } => TicketState {
                batches,
                ..of_kind(1)
            },
            State::Lonely { demand } => TicketState {
                demand: demand as u64,
                ..of_kind(2)
            },
            State::NoMeeting => of_kind(3),
            State::Cut => of_kind(10),
            State::InBatch => of_kind(4),
            State::Ended(ending) => ended(ending),
        }
    }
}

/// The transaction that a script became once. C calls it `struct entangle_submission`.
#[repr(C)]
#[derive(Clone, Copy)]
pub struct Submission {
    /// The number of the epoch.
    pub epoch: u64,
    /// Its number there, as the report of the epoch has it.
    pub tx: u64,
}

impl Submission {
    /// The epoch and the number of one transaction.
    pub(crate) fn of(one: OneSubmission) -> Self
        ensures epoch { result.epoch ≡ one.epoch }
        ensures tx { result.tx ≡ one.tx }
    {
        Submission {
            epoch: one.epoch,
            tx: one.tx,
        }
    }
}
