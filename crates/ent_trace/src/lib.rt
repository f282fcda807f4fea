//! Watchers of a schedule, and the text of the events and replies that they are told.
//!
//! A [`Trace`] writes each event with its reply as a line. Nothing here fails: a text for which memory ran out is
//! marked as cut off.
//!
//! A [`NoteTaker`] notes what each transaction was told last, and what stopped it. A caller may rely on it that its
//! notes are those of all events and replies that it was told, in order, unless they say that they aren't whole. A
//! [`Foreword`] says something before anything runs, and [`Both`] tells two watchers the same.
#![tactic(auto)]

mod answer;
mod both;
mod event;
mod foreword;
mod looks;
mod news;
mod note_taker;
mod reply;
mod text;
mod trace;
mod watcher_law;

pub use answer::{put_answers, put_rows};
pub use both::Both;
pub use foreword::Foreword;
pub use note_taker::NoteTaker;
pub use reply::put_reply;
pub use text::WrittenText;
pub use trace::Trace;
pub use watcher_law::notes_are_of_what_was_told;
