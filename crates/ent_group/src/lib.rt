//! Groups of transactions, and cycles of transactions that wait for each other.
//!
//! Each of up to 64 members is in one group. Groups are merged, or leave whole. Contracts promise that the members of a
//! group come by number; that [`cycle`] finds a cycle that begins with the greatest transaction on any cycle, or that
//! there is none; and that no call takes memory, so no call can fail.
#![tactic(auto)]

mod groups;
mod marks;
mod members;
mod waits;

pub use groups::{Groups, Membership};
pub use marks::{Row, with_mark};
pub use members::{MOST_MEMBERS, Members, Tx};
pub use waits::{cycle, few_pairs_name_few};
