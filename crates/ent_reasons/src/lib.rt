//! Why transactions didn't commit, told to people, and the notes and observations of runs that tell it.
//!
//! [`Notes`] are kept while a schedule runs: what each transaction was told last in its run. As long as they are whole,
//! the note of a transaction is that of all that was told of it. If there is no memory for more transactions, the notes
//! say that they aren't whole.
//!
//! [`Observations`] keep what a watcher saw of members that can't move, and which joint answers connect a group. They
//! have what was handed in, and no contract says more. [`Reasons`] rest on both, and on the text of the input for the
//! lines of its statements. Rows of examples test the sentences; `ent_told_rows` plays them.
#![tactic(auto)]

mod demand;
mod demand_text;
mod last_status;
mod note;
mod notes;
mod observation;
mod observations;
mod reason;
mod reasons;
mod script_lines;
mod tables;
mod waiting;
mod walk;

pub use demand_text::{DemandTerm, append_demand};
pub use last_status::LastStatus;
pub use note::{Change, Note};
pub use notes::Notes;
pub use observation::{Block, Lacking, Need, Observation, Step};
pub use observations::Observations;
pub use reasons::Reasons;
