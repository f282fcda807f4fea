//! Laws of the protocol, whatever the forms of the scripts: what events do, that runs end, and that books are legal.
//!
//! In a state that is reached each transaction stands once, members stand by number, and the pool is safe. An event
//! determines the state behind it, and groups leave together.
//!
//! Runs end. A state of a run is within a number of steps if that number covers what its members have not begun yet,
//! the components that have to be tried, and the members themselves. Every reply that tells of progress uses up a step,
//! and none gives one back but those that bring new work. So a schedule that goes on while there is progress comes to
//! an end. An idle round is quiet, a quiet run ends, and each end of a run uses up a try, until every script has a
//! fate.
//!
//! The book of each reached state is legal, if the forms mean what their statements mean: the committed transactions
//! are serializable with an oracle. A run has no more commits than members, the journal grows by the entries of commits
//! alone, and nothing but a commit changes the settled tables.
//!
//! The functions here have no body of their own: their contracts are laws of the definitions of ent_protocol.
#![tactic(auto)]

mod bounds_law;
mod commit_law;
mod endings_law;
mod serial_law;
mod standing_law;
mod steps_law;

pub use bounds_law::{progress_is_bounded, progress_uses_up, runs_are_within, steps_stay_within};
pub use commit_law::{commits_take_members, journals_grow_by_commits, only_commits_settle_tables};
pub use endings_law::{
    ended_runs_use_up_tries, events_keep_the_input, events_lead_on, finished_scripts_have_fates,
    idle_rounds_are_quiet, jobs_are_lent_by_replies, members_come_by_number,
    ready_members_are_answered, results_are_taken_at_once,
};
pub use serial_law::{
    committed_runs_give_the_book, conflicts_stand_in_groups,
    entangled_statements_are_answered_once, groups_run_alone, joint_answers_are_good,
    journals_fit_the_fates, lent_jobs_are_present, live_answers_are_good_in_groups,
    reached_states_are_legal, reached_states_are_serial,
};
pub use standing_law::{
    attempts_stay_within, groups_are_classes, lent_jobs_stand_once, lent_tables_are_declared,
    members_stand_by_number, pools_are_safe, scripts_are_few, steps_go_on,
    transactions_are_counted, transactions_stand_once,
};
pub use steps_law::{
    ended_members_give_up_at_last, events_are_determined, groups_leave_together,
    journals_grow_by_groups, rollbacks_restore_tables, rolled_back_members_give_up_at_last,
    settled_tables_precede_changes,
};
