//! Jobs: work of transactions, with the tables that it uses, and the jobs that a core has lent.
//!
//! A caller may rely on the type [`Job`]: its statements fit its tables, and posted ones are one component of a safe
//! pool, so that whoever carries it out has to look at nothing else. Evaluation is in a crate of its own, above.
//!
//! [`LentJobs`] is the list of the jobs whose results are awaited, the newest last. A caller may rely on it that each
//! call does to the list exactly what the protocol's functions say, that a call that finds no memory leaves it as it
//! was, and that only `lend` takes memory.
#![tactic(auto)]

mod job;
mod lent;
mod list;
mod membership;
mod single;
mod work;

pub use job::Job;
pub use lent::LentJobs;
pub use list::is_lent;
pub use single::Single;
pub use work::Work;
