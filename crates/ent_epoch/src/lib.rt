//! Epochs: a core that takes scripts in batches, makes one run of each batch, and publishes every commit.
//!
//! An [`Epoch`] takes a batch of scripts, at most as many as a run has members, and makes one run of them, to its end.
//! Then nobody waits in the core and no run is on. A caller may rely on it that an epoch submits nothing but what it is
//! given, for one run each, that its book is legal at all times, and that it can be closed after each batch. A turn
//! ends it and begins the next one, which goes on where its tables stand.
//!
//! A [`Telling`] knows up to which commit the groups of an epoch tell of its core. As the watcher of a run it notes
//! each commit, with the settled tables behind it. Its groups, which the epoch puts into a feed, tell of each commit
//! once: one group for each commit, or one for all of them where memory ran out while it noted.
#![tactic(auto)]

mod epoch;
mod law;
mod notes;
mod notes_law;
mod one_run;
mod publishing;
mod script;
mod telling;
mod turn;

pub use ent_renewal::FinishedBook;
pub use ent_sched::resolved_runs_are_legal;
pub use epoch::{Epoch, NotSubmitted, UnclosedEpoch};
pub use law::groups_tell_of_epochs;
pub use notes_law::{
    entries_have_tickets, groups_of_notes_tell, notes_are_of_what_was_told, tellings_keep_up,
    told_tables_are_settled,
};
pub use one_run::run_to_end;
pub use script::for_one_run;
pub use telling::Telling;
pub use turn::NotTurned;
