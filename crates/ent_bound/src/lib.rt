//! Bound values: host variables to which a caller binds values before a script is resolved.
//!
//! A [`BoundVariable`] is a name and a value, and a [`BoundValue`] is always one that a script can spell. [`bind`] puts
//! literals of these values in the place of the host variables of these names, in the tree of a script and not in its
//! text, so that no value has to be quoted. All other parts of the script stay as they are, places included.
#![tactic(auto)]

mod binding;
mod entangled;
mod fault;
mod list;
mod operand;
mod part;
mod setting;
mod statement;
mod value;
mod variable;

pub use binding::{NotBound, bind, bound};
pub use fault::{BindingFault, ValueFault};
pub use value::BoundValue;
pub use variable::BoundVariable;
