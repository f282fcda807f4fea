//! The members of a run: who is prepared, their lock table and their groups.
//!
//! A [`Run`] holds the members, up to 64: those that are prepared, in the order in which they prepared, and the others
//! by number. A caller may rely on it that each call does to the members exactly what the protocol's functions say, and
//! that a call that finds no memory leaves them as they were.
#![tactic(auto)]

mod answer;
mod asker;
mod change;
mod gather;
mod groups;
mod law;
mod locks;
mod member_list;
mod member_slab;
mod moves;
mod run;
mod search;
mod start;
mod waits;

pub use law::awaited_members_are_waited_for;
pub use run::Run;
pub use search::member_numbers;
