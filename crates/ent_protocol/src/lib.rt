//! What a core does: its state, its events and their replies, as definitions.
//!
//! A core runs the scripts that were submitted, up to 64 at once, statement by statement. `specs/` says what a state
//! is, and for each event which replies and which state it leads to; where they are determined by functions, else by
//! relations. The functions here have no body: their contracts are laws of these definitions.
#![tactic(auto)]

mod law;

pub use law::{
    closing_gives_the_book, commits_are_numbered, played_states_are_gathered, plays_lead_on,
    reached_states_are_tidy, refusals_change_nothing,
};
