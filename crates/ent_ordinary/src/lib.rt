//! Ordinary statements carried out over tables: the rows of a SELECT, and what the other statements change.
//!
//! A caller may rely on [`all`]: the ascending list of a SELECT's rows, each once; on [`statement_outcome`]: what it
//! tells of a closed ordinary statement is what the statement means in each database in which its tables stand; and on
//! [`table_changed`], which makes the change that it tells. Nothing here knows of transactions, locks or runs, so the
//! check of reports stands on it too.
//!
//! Joint choices use the parts below: tests of a WHERE that are made ready once for all rows ([`PreparedTests`]), the
//! values that they want in the first columns ([`first_values`]), and the table of a number ([`table_at`]).
#![tactic(auto)]

mod change;
mod changed_row;
mod changed_table;
mod condition;
mod evaluation;
mod expression;
mod first;
mod outcome;
mod prepared;
mod row;
mod select;
mod table;
mod term;

pub use changed_table::table_changed;
pub use condition::compares;
pub use evaluation::statement_outcome;
pub use first::first_values;
pub use outcome::Outcome;
pub use prepared::PreparedTests;
pub use select::all;
pub use table::table_at;
pub use term::operand_value;
