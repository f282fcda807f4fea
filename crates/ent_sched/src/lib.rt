//! A scheduler for one thread: it makes one run after the other, until each script has its fate.
//!
//! In a round of a run each member has its turn, then a component of the pool is answered, then a deadlock is broken.
//! Rounds and runs work on a [`Counted`]: a core, and a count that ticks at each event.
//!
//! - [`round`] makes a bounded number of events, and no job is lent when it is done. If something moved, the round used
//!   up a step of progress. If nothing moved, the state is as it was, and the run is quiet.
//! - [`run`] makes a bounded number of events and leaves no run on. Each run uses up tries.
//! - [`run_all`] takes the jobs back and makes runs, each within its bound, and does nothing else. It answers the
//!   finished book of the core that it is given; this book is legal, and each script has a fate in it. It fails only if
//!   memory runs out, and then it gives the core back.
//! - [`run_all_counted`] does the same, and says how many events it made. [`run_all_watched`] also tells a [`Watcher`]
//!   of each event with its reply, in order, and of nothing else.
//!
//! [`Core`] is that of `ent_core`, exported again for the callers of this crate.
#![tactic(auto)]

mod all_runs;
mod counted;
mod deadlock;
mod joint;
mod law;
mod one_round;
mod one_run;
mod progress;
mod rounds;
mod turn;
mod watcher;

pub use all_runs::{run_all, run_all_counted, run_all_watched};
pub use counted::{Counted, CountedBook};
pub use ent_core::{
    BeginRefusal, Core, NotClosed, NotDone, Obstacle, PackedMembers, Reason, Reply, Standing,
    answers_copy, resolved_forms_are_faithful, resolved_runs_are_legal,
};
pub use law::{events_add_up, events_use_up_tries};
pub use one_round::round;
pub use one_run::{run, run_watched};
pub use watcher::{MadeEvent, Silent, Watcher};
