//! Tables: finite sets of rows of stated kinds, and the changes of them.
//!
//! A caller may rely on the set equations: what a call answers is said of kinds and a set of rows, and of no page or
//! key. A change makes a new table, and the one that it came from stays as it was; `TableFull` comes exactly where more
//! rows would stand than a table holds. Rows are gone over in ascending order, each where it stands.
//!
//! A [`NumberedTable`] is a table, which is shared, under its number.
#![tactic(auto)]

mod change;
mod copies;
mod fault;
mod keys;
mod kinds;
mod laws;
mod matches;
mod numbered;
mod row_cursor;
mod rows;
mod table;

pub use change::Delta;
pub use ent_page::{Cell, KnownValue, StoredRow};
pub use fault::{LoadRefused, TableFull};
pub use laws::changes_by_row;
pub use numbered::NumberedTable;
pub use row_cursor::RowCursor;
pub use rows::ascending;
pub use table::Table;
