//! What entangled SQL means: the definitions that a reader has to believe.
//!
//! They speak of the tree of an input and of finite sets, never of the code: a statement goes from a database and an
//! environment to those after it and an [`Answer`], or to a [`Failure`]; scripts run alone, one after the other, with
//! an oracle that answers their entangled statements; a [`Book`] is legal where such a run gives it. Contracts above
//! compare what the program answers with what they say.
//!
//! [`Statement`] is a statement in the form in which it is matched and carried out. Names are numbers there. A table is
//! its number in the order of declaration, a column its number in the row of the statement's sources side by side, and
//! a written variable its number in the order of first appearance. `K` is what is known before any row is read: a
//! [`Known`] in a resolved statement, and an [`ent_value::Value`] in a closed one, where values have replaced the host
//! variables. One definition gives both their meaning, from what a `K` is worth. [`ent_tree::Duplicate`] copies them,
//! and [`ent_tree::Same`] compares them.
//!
//! A pool of posted closed statements is safe or not, has a remainder, and falls into components; a component has a
//! coordinating choice over given tables or none, and if it has some, a least one. Values and sets say all of this;
//! nothing says how it is found.
//!
//! Three small functions work by these definitions, for the crates above: [`element`], [`is_column_among`] and
//! [`Failure::name`]. The functions of `law`, `closing_law` and `pool_law` have no body: their contracts are laws of
//! the definitions.
#![tactic(auto)]

mod answer;
mod book;
mod by_number;
mod closing_law;
mod column;
mod copies;
mod entangled;
mod equality;
mod law;
mod operand;
mod pool_law;
mod statement;

pub use answer::{Answer, Fact, Failure};
pub use book::{Book, Entry, Fate, Fated, JointAnswer, Member};
pub use by_number::element;
pub use closing_law::closing_keeps_the_meaning;
pub use column::is_column_among;
pub use entangled::{Atom, Binding, Entangled, Membership, Term};
pub use law::{results_are_of_item_kinds, runs_go_on, statements_keep_to_their_uses};
pub use operand::{Known, Operand};
pub use pool_law::{components_are_classes, least_choice_is_one, remainder_is_the_greatest};
pub use statement::{Select, Statement};
