//! A stream that is read whole, up to a limit, in any pieces in which it comes.
#![tactic(auto)]

mod fault;
mod reader;

pub use fault::StreamFault;
pub use reader::read_whole;
