//! Rows as keys: bytes whose order is the order of rows; and sets of keys in pages.
//!
//! A key is read back as the row that it was made of, and a page that stands in a set is never changed. A caller may
//! rely on equations alone: those of a [`Page`] speak of a list of keys, those of a [`KeySet`] of a finite set of them,
//! whatever its pages.
#![tactic(auto)]

mod cell;
mod key;
mod key_cursor;
mod key_set;
mod known_value;
mod laws;
mod merging;
mod page;
mod page_builder;
mod page_cursor;
mod pages;
mod probe;
mod reading;
mod stored_row;
mod writing;

pub use cell::Cell;
pub use key::Key;
pub use key_cursor::KeyCursor;
pub use key_set::KeySet;
pub use known_value::KnownValue;
pub use laws::{first_values_are_fronts, keys_are_in_order, values_are_in_order};
pub use page::Page;
pub use pages::PAGE_LIMIT;
pub use probe::Probe;
pub use stored_row::StoredRow;
