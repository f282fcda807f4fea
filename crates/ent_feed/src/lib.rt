//! The feed of commits: groups of tickets with what they changed, numbered, until a store has taken them in.
//!
//! A [`Feed`] keeps the groups that aren't settled, in order of their numbers. A [`Group`] tells of the tickets that
//! committed together or ended otherwise, and of the net change of each table; [`append_line`] writes it as JSON.
#![tactic(auto)]

mod answer;
mod difference;
mod feed;
mod group;
mod json;
mod law;
mod line;
mod tables;

pub use difference::net_change;
pub use feed::{Feed, NoNumber};
pub use group::{Commit, EndedTicket, Group, OtherEnding, TableChange};
pub use law::{
    changes_apply, groups_give_the_journal, groups_give_the_settled_tables, net_changes_apply,
};
pub use line::append_line;
pub use tables::table_changes;
