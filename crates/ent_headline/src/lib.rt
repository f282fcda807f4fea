//! The headline: the book of every state that a core can reach is legal, so its committed transactions are
//! serializable with an oracle.
//!
//! [`resolved_runs_are_legal`] says so, for scripts that `resolve` resolves over an opening without a fault of form.
//! ent_protocol_laws proves the same for all forms that mean what their statements mean and use the tables that those
//! use. Here it is proved that the forms of `resolve` are such.
//!
//! More holds of these states. The form of each submitted script is what it resolves to. The heads of a statement in
//! the pool are of distinct relations ([`resolved_heads_are_distinct`]), so each post unifies with one of them at most,
//! as a plan and a joint job require; and its written variables stand in tuples of sub-selects
//! ([`resolved_variables_are_ranged`]), so rows of tables give their values. The host variables of an unprepared member
//! have values of the kinds that are known at its place, so its next statement fits the tables that are lent with it.
//! Each law is the contract of a public function that does nothing but call laws.
#![tactic(auto)]

mod form;
mod kinds;
mod offer_law;
mod reached;
mod run;
mod work;

pub use form::resolved_forms_are_faithful;
pub use kinds::{host_variables_have_kinds, next_statements_fit, resolved_runs_keep_kinds};
pub use offer_law::{resolved_heads_are_distinct, resolved_variables_are_ranged};
pub use reached::{
    posted_heads_are_distinct, posted_variables_are_ranged, submitted_forms_are_resolved,
};
pub use run::{
    a_resolved_script_commits, accepted_results_are_outstanding, finished_books_are_legal,
    resolved_answers_are_good, resolved_answers_are_good_in_groups,
    resolved_conflicts_stand_in_groups, resolved_entangled_statements_are_answered_once,
    resolved_groups_run_alone, resolved_jobs_are_present, resolved_journals_fit_the_fates,
    resolved_runs_are_legal, resolved_runs_are_serial, resolved_runs_give_the_book,
};
pub use work::{begun_statements_are_work, picked_statements_fit, used_tables_are_declared};
