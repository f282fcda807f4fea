//! The rules of ent_history, checked over what a report tells.
//!
//! The rules of the journal, of joint answers and of postconditions are checked whole, and the commits are put in
//! order. Transactions and their statements run alone, each over the tables that the one before left. Nothing is
//! searched for: a grounding is looked up by the place of its statement and tested, each tuple among the rows of its
//! sub-select's result, and each test; an answer is compared with the one that the report tells.
//!
//! A law says that a closed form and the statement whose form it is have the same finding.
#![tactic(auto)]

mod alike;
mod declared;
mod evidence;
mod facts;
mod ground;
mod groundings;
mod heads;
mod joined;
mod joint;
mod journal;
mod member;
mod offer;
mod operation;
mod order;
mod post;
mod replay_law;
mod replay_offer;
mod seat;
mod seating;
mod serial;
mod statement;
mod table;
mod term;
mod transaction;

pub use alike::same_answer;
pub use declared::Declared;
pub use evidence::Evidence;
pub use facts::{bindings_of, facts_of};
pub use ground::tables_of;
pub use groundings::{Groundings, Seat};
pub use joint::joint_finding;
pub use journal::journal_finding;
pub use offer::StatementOffer;
pub use order::commit_order;
pub use post::post_finding;
pub use replay_law::statements_are_found_as_their_forms;
pub use seat::Seats;
pub use seating::seats_of;
pub use serial::{Replayed, replay};
pub use statement::carry_out;
pub use table::tables_finding;
