//! The tree of an input: what the whole language says, as values.
//!
//! An [`Input`] is tables, opening rows and scripts. Each name, value and tuple keeps where it stands, a byte offset
//! from the input's start, and no list is longer than its limit. [`Duplicate`] makes copies, and
//! [`Same`] compares.
#![tactic(auto)]

mod boxed;
mod declaration;
mod duplicate;
mod entangled;
mod limits;
mod operand;
mod same;
mod script;
mod select;
mod statement;

pub use boxed::Boxed;
pub use declaration::{Column, Create, Opening, OpeningRow};
pub use duplicate::Duplicate;
pub use entangled::{Condition, Entangled, EntangledItem, Term, Tuple};
pub use limits::{
    DEFAULT_RUNS, MOST_OPENING_ROWS, MOST_PARTS, MOST_RUNS, MOST_SCRIPTS, MOST_SOURCES,
    MOST_STATEMENTS, MOST_TABLES, Runs,
};
pub use operand::{
    ColumnReference, Comparison, Expression, Identifier, Literal, Operand, Test, ValueSpecification,
};
pub use same::{Same, are_same};
pub use script::{End, Input, Script, Statement};
pub use select::{Items, Select, Source};
pub use statement::{Assignment, Delete, Insert, Set, Update};
