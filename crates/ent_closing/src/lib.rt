//! Closing: the values of host variables take their places in a resolved statement, which keeps its meaning.
#![tactic(auto)]

mod closing;
mod entangled;
mod environment;
mod operand;
mod statement;

pub use environment::Environment;
pub use statement::closed;
