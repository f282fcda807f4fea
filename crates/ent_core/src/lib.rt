//! The core: scripts that are run at once, statement by statement.
//!
//! A [`Core`] is opened over an opening, takes scripts, and makes one event a call. Its type keeps that its state is
//! reached: events led to it from the state of its opening. A caller may rely on it that each call's reply and the
//! state that it leaves are those of its event, that after want of memory the state is as it was, and that a look-up
//! takes no memory, but for [`Core::obstacle`].
#![tactic(auto)]

mod advance;
mod begin;
mod break_cycle;
mod closing;
mod commit;
mod copies;
mod end_run;
mod event;
mod finish;
mod join_answer;
mod joining;
mod lookup;
mod obstacle;
mod open;
mod packed_members;
mod pick;
mod play;
mod reached;
mod recall;
mod reply;
mod standing;
mod start_run;
mod step;
mod store;
mod submit;
mod take_out;

pub use begin::{BeginRefusal, FreeMember};
pub use closing::{NotClosed, NotDone};
pub use copies::answers_copy;
pub use ent_headline::{
    resolved_forms_are_faithful, resolved_journals_fit_the_fates, resolved_runs_are_legal,
};
pub use ent_waits::Reason;
pub use event::Event;
pub use obstacle::Obstacle;
pub use packed_members::PackedMembers;
pub use play::{PlayFault, Played};
pub use reached::Core;
pub use reply::Reply;
pub use standing::Standing;
