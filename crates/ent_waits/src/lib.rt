//! What a run can do next: which component is picked, who waits for whom, who may move, and why a run can't end yet.
//!
//! Laws say in the pool's own words what events do to the posted statements. A core that keeps a pool, and posts and
//! withdraws as the laws say, has the pool of its state. The calls for a pool tell of every state in which just its
//! statements are posted: of the components that can be picked the one with the least first member, whether some
//! statements are a component, and of the pool with one statement more that it is safe, or its first unsafe post.
//!
//! A member of a run that is neither posted nor has a job out waits for those who hold what is in conflict with what
//! its next statement asks for. [`deadlock`] finds the cycle of waiting that begins with the greatest transaction on
//! any, and none only if nobody waits in a cycle; [`victim_of`] tells the group that is rolled back for it. These take
//! no memory, so neither of them can fail.
//!
//! A run ends only if no job is out, no member would move, each component was tried and nobody waits in a cycle.
//! [`reason_of`] answers the first of these that is not so, with the least transaction of which it isn't, and no reason
//! exactly if the run is quiet, memory aside.
#![tactic(auto)]

mod changers;
mod cycle_search;
mod cycles;
mod fault;
mod free;
mod jobs;
mod marks;
mod movers;
mod next_uses;
mod open;
mod pairs;
mod picking;
mod pool_law;
mod present;
mod reason;
mod rows;
mod uses;
mod victim;
mod waiting;

pub use cycles::deadlock;
pub use fault::{post_fault, unsafe_post};
pub use free::blocker_of;
pub use picking::{first_untried, pick};
pub use pool_law::{
    answered_statements_leave, leaving_members_withdraw, posting_adds_a_statement,
    submitted_scripts_keep_the_pool, unposted_members_keep_the_pool,
};
pub use present::is_present;
pub use reason::{Reason, reason_of};
pub use uses::joint_uses;
pub use victim::{Victim, victim_of};
