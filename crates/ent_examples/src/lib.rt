//! Examples and second definitions, which show that books and plays are defined as a reader expects.
//!
//! **Examples**: a legal book, books that aren't, pools, and plays of a core, event by event. The contract of a play
//! says that its events lead, with these replies, from an opening's own state to a state, and what is so there. The
//! plays of `play` hold whatever resolves scripts to the statements that they name. In `resolved_play` the scripts are
//! written out, and resolving gives these statements; so each leads to a state of which the laws of resolved forms say
//! something.
//!
//! **Second definitions** of events and of the serial run, which a reader believes sooner than the first ones:
//! contracts say that they and the definitions of ent_protocol and ent_semantics say the same.
//!
//! Nothing here has a body that does more than call laws.
#![tactic(auto)]

mod event_law;
mod friends;
mod play;
mod pool;
mod resolved_play;

pub use event_law::{
    begin_goes_by_rows, joint_answers_join_groups, oracles_answer_in_order,
    serial_runs_are_read_off_traces,
};
pub use friends::{friends_may_fly_together, oracle_answers_are_counted, wrong_books_are_refused};
pub use play::{
    component_grows, component_shrinks_back, failure_takes_the_group_back,
    job_outlives_its_attempt, joint_answers_stand_as_made, linked_roll_back_together,
    partner_passes_a_prepared_lock, results_are_taken_once, ring_commits_together, run_is_busy,
    third_is_held_back, two_writers_deadlock,
};
pub use pool::{friends_are_safe, third_is_unsafe};
pub use resolved_play::{
    a_pair_commits, a_ring_of_three_commits, a_rollback_leaves_nobody_committed,
    an_unsafe_third_posts_later,
};
