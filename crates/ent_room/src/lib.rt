//! The waiting room: scripts wait in front of a core, and come in together with those whom they need.
//!
//! A [`Room`] takes scripts by their text, under tickets. [`Room::step`] makes runs, each of an ordinary script alone or
//! of a meeting alone, which is a set of scripts that need nobody else. Who isn't answered waits again, until it gives up
//! or its client takes it back. [`Room::groups`] tells what committed, with all that it changed. What may
//! become of a ticket, what a step submits, and what the groups tell, are contracts of `ent_admission`; in which order
//! those who wait are served is told in docs/ROOM.md, and promised by no clause.
#![tactic(auto)]

mod batch;
mod clocks;
mod crowd;
mod epoch_book;
mod groups;
mod law;
mod order;
mod profile;
mod prospects;
mod putting;
mod reading;
mod room;
mod root;
mod seeking;
mod state;
mod step;
mod tried;
mod turns;
mod waking;
mod widening;
mod work;

pub use ent_admission::FinishedBook;
pub use epoch_book::EpochBook;
pub use putting::{NotPut, NotPutBack, Stay};
pub use reading::NotOpened;
pub use room::{NotTurned, Room};
pub use state::State;
pub use step::{NotStepped, Stepped};
