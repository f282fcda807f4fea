//! Texts read: bytes become an input, or a script alone, or they have a fault.
//!
//! [`read_input`] and [`read_script`] answer exactly what the bytes say, or the first fault of their text: more than
//! [`MOST_BYTES`], else no UTF-8, else one of tokens or grammar. Faults of form are cases of [`InputFault`] too: they come
//! from resolving what was read.
#![tactic(auto)]

mod fault;
mod reading;

pub use fault::InputFault;
pub use reading::{MOST_BYTES, read_input, read_script};
