//! Scripts that wait no more.
ghost use Rattle.std.specs.Prelude.{◌≡◌, ◌≤◌, ◌<◌, ◌∷◌, ◌++◌, [], length};
ghost use Rattle.std.specs.VecDeque.{deque_capacity, deque_len};
ghost use Rattle.std.specs.Option.{option_copied};
ghost use Rattle.ent_waiting.specs.Ended.{ended_of, last_but, last_of};

use crate::ticket::Ticket;
use crate::waiter::Submission;
use ent_semantics::Failure;
use ent_value::Sequence;
use std::collections::VecDeque;

/// How a script ended.
#[derive(Clone, Copy, Debug, PartialEq, Eq)]
pub enum Ending {
    /// It committed in this epoch, as the number-th there, counted from 1.
    Committed { epoch: u64, number: u64 },
    /// It ended with ROLLBACK.
    RolledBack,
    /// A statement couldn't be carried out.
    Failed(Failure),
    /// Its patience is used up.
    GaveUp,
    /// Its client took it back.
    Withdrawn,
}

/// A script that waits no more.
#[derive(Drop)]
pub struct Ended {
    pub ticket: Ticket,
    pub ending: Ending,
    /// In how many batches it was that count against its patience.
    pub batches: u64,
    /// The transactions that it became, in order.
    pub submissions: Sequence<Submission>,
}

/// How the script of a ticket ended, where that is kept.
pub(crate) fn ended_of(ended: &VecDeque<Ended>, ticket: u64) -> Option<&Ended>
    ensures { option_copied result ≡ ended_of ticket ended.now.items }
{
    ended.iter().find(|one| one.ticket.number() == ticket)
}

/// An ended ticket, counted back from the last one, which is number 0; None if it isn't kept.
pub(crate) fn last_but(ended: &VecDeque<Ended>, back: usize) -> Option<&Ended>
    ensures { option_copied result ≡ last_but back ended.now.items }
{
    let upto = ended.len().checked_sub(back)?;
    let place = upto.checked_sub(1)?;
    ended.get(place)
}

/// Adds an ended ticket, and drops the oldest beyond `most`.
pub(crate) fn keep(ended: &mut VecDeque<Ended>, most: usize, one: Ended)
    requires limit { length ended.old.items ≤ most }
    requires room { deque_len ended.old < deque_capacity ended.old }
    ensures { ended.new.items ≡ last_of most (ended.old.items ++ one ∷ []) }
{
    ended.push_back_reserved(one);
    if ended.len() > most {
        let _first = ended.pop_front();
    }
}
