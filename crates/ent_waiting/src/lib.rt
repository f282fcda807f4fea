//! The waiting list of a room, and the laws of stores: databases that keep what its scripts committed.
//!
//! A [`WaitingList`] gives each script that is put a [`Ticket`], and no ticket twice. A script waits until it ends:
//! committed, rolled back or failed as a core says, given up since its patience is used up, or withdrawn. A caller may
//! rely on it that a ticket ends at most once, that a script that ended never waits again, and that a refused call
//! changes nothing. Nothing here knows a core: the caller says which transaction a script became, and what came of it.
//!
//! A store outlives the processes that write to it. Processes claim it; each has a room in memory, and writes to the
//! store what committed there. Writes are lost, come late or twice; processes crash and begin anew at any time. The
//! laws have no body: their contracts speak of the definitions in `specs`. docs/STORES.md says what is modelled, and
//! what isn't.
#![tactic(auto)]

mod ended;
mod queues;
mod store_law;
mod ticket;
mod waiter;
mod waiting_list;

pub use ended::{Ended, Ending};
pub use queues::{Rank, Station};
pub use store_law::{
    earlier_claimants_are_fenced_off, memory_stands_on_the_store, tables_are_those_after_groups,
    told_endings_stand, told_tickets_stand, two_processes_share_a_store,
    unwritten_endings_are_untold, versions_tell_what_went_through, waiting_lists_go_on_so,
    writes_are_ordered,
};
pub use ticket::Ticket;
pub use waiter::{Patience, Submission, Waiter, WaitingPlace};
pub use waiting_list::{Full, Limits, NotRestored, NotWithdrawn, WaitingList};
