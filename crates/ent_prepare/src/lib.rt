//! Texts and values that a caller hands over, prepared: scripts that can be submitted, and openings with given rows.
//!
//! A [`Preparing`] holds the tables that an opening declares. [`Preparing::prepare`] reads a script's text, binds the
//! caller's values and looks for faults of form; it answers the script, or the first fault. A script that it answers
//! has none, so no core over these tables refuses it for its form.
//!
//! A [`GivenRow`] names a table and has its values. [`with_rows`] makes an opening with such rows behind its own, in
//! order. They stand in no text: their place is the number of the row, so the first fault of form says which row has
//! it.
#![tactic(auto)]

mod binding;
mod cache;
mod fault;
mod given_law;
mod opening;
mod preparing;
mod row;
mod value;

pub use cache::{LONGEST_KEPT, MOST_TEXTS};
pub use fault::PrepareFault;
pub use given_law::{first_fault_tells_its_row, given_rows_come_last};
pub use opening::with_rows;
pub use preparing::Preparing;
pub use row::GivenRow;
pub use value::GivenValue;
