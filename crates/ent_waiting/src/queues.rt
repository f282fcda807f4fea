//! The stations of those who wait.
ghost use Rattle.std.specs.Prelude.{◌≡◌, ◌≤◌, ◌||◌, ◌&&◌, ℕ, false, not, true, IfNone, IfSome, OnErr, OnOk};
ghost use Rattle.std.specs.BTreeMap.{is_at};
ghost use Rattle.std.specs.Ordering.{nat_cmp};
ghost use Rattle.ent_waiting.specs.declared.queues.Station.{Station as StationSeen};
ghost use Rattle.ent_waiting.specs.Queues.{IsEmpty, MakesAt, Puts, SameQueues, has, stands_in};

use crate::waiter::WaitingPlace;
use std::alloc::{AllocError, Global};
use std::collections::BTreeSet;

/// A queue of scripts that wait, in the order in which queues are served. In a queue the least ticket comes first,
/// which has waited longest.
#[derive(Clone, Copy, Debug, PartialEq, Eq)]
pub enum Rank {
    /// Scripts without an entangled statement.
    Ordinary,
    /// Newcomers, and those whose meetings a newcomer may complete.
    Newcomer,
    /// Those who were woken, since something changed.
    Woken,
}

/// Where those stand who don't rest.
#[derive(Clone, Copy, Debug, PartialEq, Eq)]
pub enum Station {
    /// In the queue of this rank.
    Queue(Rank),
    /// In the present batch.
    Batch,
}

/// The tickets at each station.
#[derive(Drop)]
pub(crate) struct Queues {
    pub(crate) ordinary: BTreeSet<u64>,
    pub(crate) newcomers: BTreeSet<u64>,
    pub(crate) woken: BTreeSet<u64>,
    pub(crate) batch: BTreeSet<u64>,
}

pub(crate) fn new(alloc: Global) -> Queues
    ensures { IsEmpty result }
{
    Queues {
        ordinary: BTreeSet::new(alloc),
        newcomers: BTreeSet::new(alloc),
        woken: BTreeSet::new(alloc),
        batch: BTreeSet::new(alloc),
    }
}

/// A ticket comes to a station. Where memory runs out nothing changes.
pub(crate) fn join(queues: &mut Queues, station: Station, ticket: u64) -> Result<(), AllocError>
    ensures ok { OnOk result (Puts true station ticket queues.old queues.new) }
    ensures err { OnErr result (SameQueues queues.old queues.new) }
{
    match station {
        Station::Queue(Rank::Ordinary) => queues.ordinary.insert(ticket)?,
        Station::Queue(Rank::Newcomer) => queues.newcomers.insert(ticket)?,
        Station::Queue(Rank::Woken) => queues.woken.insert(ticket)?,
        Station::Batch => queues.batch.insert(ticket)?,
    };
    Ok(())
}

/// A ticket leaves a station.
pub(crate) fn leave(queues: &mut Queues, station: Station, ticket: u64)
    ensures { Puts false station ticket queues.old queues.new }
{
    match station {
        Station::Queue(Rank::Ordinary) => queues.ordinary.remove(&ticket),
        Station::Queue(Rank::Newcomer) => queues.newcomers.remove(&ticket),
        Station::Queue(Rank::Woken) => queues.woken.remove(&ticket),
        Station::Batch => queues.batch.remove(&ticket),
    };
}

/// A ticket comes to the station of a place, where it has one. Where memory runs out nothing changes.
pub(crate) fn enter(queues: &mut Queues, place: WaitingPlace, ticket: u64) -> Result<(), AllocError>
    ensures ok { OnOk result (MakesAt ticket (λ station. stands_in station place || has station queues.old ticket)
        queues.old queues.new) }
    ensures err { OnErr result (SameQueues queues.old queues.new) }
{
    match place {
        WaitingPlace::Queued(rank) => join(queues, Station::Queue(rank), ticket),
        WaitingPlace::Chosen | WaitingPlace::Submitted(_) => join(queues, Station::Batch, ticket),
        WaitingPlace::Resting => Ok(()),
    }
}

/// A ticket leaves the station of a place, where it has one.
pub(crate) fn quit(queues: &mut Queues, place: WaitingPlace, ticket: u64)
    ensures { MakesAt ticket (λ station. not (stands_in station place) && has station queues.old ticket)
        queues.old queues.new }
{
    match place {
        WaitingPlace::Queued(rank) => leave(queues, Station::Queue(rank), ticket),
        WaitingPlace::Chosen | WaitingPlace::Submitted(_) => leave(queues, Station::Batch, ticket),
        WaitingPlace::Resting => {}
    }
}

/// Whether two places are at different stations, or one of them is at none.
#[tactic(auto, using(crate::proofs::Keeping::are_apart, crate::proofs::Keeping::are_same))]
fn are_apart(from: WaitingPlace, to: WaitingPlace) -> bool
    ensures apart { result ≡ true
        → (station : StationSeen) → stands_in station from ≡ true → stands_in station to ≡ true → ⊥ }
    ensures same { result ≡ false → (station : StationSeen) → stands_in station from ≡ stands_in station to }
{
    from != to && (from.is_idle() || to.is_idle())
}

/// A ticket goes from the station of one place to that of another. Where memory runs out nothing changes.
#[tactic(auto, using(crate::proofs::Keeping::stays))]
pub(crate) fn shift(
    queues: &mut Queues,
    from: WaitingPlace,
    to: WaitingPlace,
    ticket: u64,
) -> Result<(), AllocError>
    requires there { (station : StationSeen) → has station queues.old ticket ≡ stands_in station from }
    ensures ok { OnOk result (MakesAt ticket (λ station. stands_in station to) queues.old queues.new) }
    ensures err { OnErr result (SameQueues queues.old queues.new) }
{
    if !are_apart(from, to) {
        return Ok(());
    }
    enter(queues, to, ticket)?;
    quit(queues, from, ticket);
    Ok(())
}

/// The first ticket at a station from this one on.
pub(crate) fn first_from(queues: &Queues, station: Station, from: u64) -> Option<u64>
    ensures there { IfSome result (λ ticket. has station queues.now ticket ≡ true) }
    ensures from { IfSome result (λ ticket. from ≤ ticket) }
    ensures least { IfSome result (λ ticket. (other : ℕ)
        → has station queues.now other ≡ true
        → from ≤ other
        → ticket ≤ other) }
    ensures none { IfNone result ((other : ℕ) → from ≤ other → has station queues.now other ≡ false) }
{
    let queue = match station {
        Station::Queue(Rank::Ordinary) => &queues.ordinary,
        Station::Queue(Rank::Newcomer) => &queues.newcomers,
        Station::Queue(Rank::Woken) => &queues.woken,
        Station::Batch => &queues.batch,
    };
    queue.range(from..).next().copied()
}
