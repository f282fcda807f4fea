//! The tables of an opening, loaded with their rows.
//!
//! A caller may rely on it that [`load_tables`] makes, for an opening without a fault, each declared table with exactly
//! its opening rows, and that only want of memory keeps it from that.
#![tactic(auto)]

mod load;

pub use load::load_tables;
