//! The tables of a core as they stand, with what members of its run changed in them.
//!
//! [`StoredTables`] keeps each declared table and the changes that may still be taken back. A caller may rely on it
//! that each call does to them exactly what the protocol's functions say, that the tables keep their number and their
//! kinds, and that only `open`, `seen` and `change` take memory; where none is there, nothing has changed.
#![tactic(auto)]

mod at_number;
mod stored;

pub use stored::StoredTables;
