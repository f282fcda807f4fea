//! The transactions of a core: those that wait for a run, the members of the present run, and those that are finished.
//!
//! A [`SubmittedScript`] is a script with its statements resolved; the number of a transaction finds its script. A
//! [`TransactionTable`] is told of each script that is submitted. It keeps those who wait for a run, in order of their
//! arrival, and the fates of those who are finished. `admit` alone takes memory to change it: its type keeps room for
//! whatever becomes of the scripts that were submitted.
//!
//! A [`Progress`] is what a member has itself: its place, what it bound and its answers. A [`RunMember`] is one in its
//! run, with the locks that the lock table shows for it and the label that the groups give it. [`next_of`] is what the
//! protocol says comes next, closed under what the member bound. [`next_form`] takes no memory, and answers the
//! statement before it is closed, which needs the same locks.
//!
//! A caller may rely on it that each call does exactly what the protocol's functions say, and that a call that finds no
//! memory leaves everything as it was.
#![tactic(auto)]

mod by_number;
mod cause;
mod conflict;
mod entrant;
mod fates;
mod form;
mod hold;
mod leaving;
mod live;
mod member;
mod member_answer;
mod next;
mod numbered;
mod order;
mod progress;
mod run_attempts;
mod submitted;
mod table_use;
mod transaction_table;
mod turn;
mod uses;

pub use cause::Cause;
pub use conflict::Conflict;
pub use entrant::Entrant;
pub use form::next_form;
pub use hold::with_uses;
pub use member::{RunMember, label_in};
pub use member_answer::MemberAnswer;
pub use next::{Next, next_of};
pub use numbered::script_of;
pub use progress::Progress;
pub use run_attempts::{RunAttempt, RunAttempts};
pub use submitted::SubmittedScript;
pub use table_use::Use;
pub use transaction_table::TransactionTable;
pub use turn::{Turn, turn_of};
pub use uses::{
    MOST_USES, Uses, entangled_uses, exclusive_table, statement_uses, uses_are_kept_by_closing,
};
