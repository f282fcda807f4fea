//! An opening that goes on where a book ends.
//!
//! [`renewed_opening`] makes an opening of a finished book: with the same declarations, without a fault of form, and
//! with first tables that are those at the end of the book. It refuses only if these have more rows together than an
//! opening may have, or if memory runs out. The type [`FinishedBook`] keeps that its book is finished.
//! [`drained_opening`] does the same for tables that are found by their names, and leaves the rows of some of them out.
#![tactic(auto)]

mod book;
mod drained;
mod law;
mod named;
mod opening;
mod row;
mod table;

pub use book::FinishedBook;
pub use law::{finished_books_hold_their_tables, states_at_rest_hold_their_tables};
pub use named::TablesByName;
pub use opening::{TooManyRows, drained_opening, renewed_opening};
