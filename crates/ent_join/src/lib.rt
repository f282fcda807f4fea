//! The least coordinating choice of a component, by a search over ordered indexes.
//!
//! [`first`] answers the least choice of a plan's statements, over any tables in which the plan's tables stand, or that
//! there is none. [`first_with`] answers the same, and counts the values that the search was given in `Ticks`.
//!
//! The search gives values to the plan's classes one after the other, the least first, and leaves a beginning as soon
//! as a sub-select's result, a test or a kind refuses it. If all values of a class fail, it goes back to the last class
//! that had to do with it. A value that fails whatever the classes before it have isn't tried again. Rows that a test
//! of their own columns refuses are left out before, and a class without a value ends the search before it begins.
#![tactic(auto)]

mod alone;
mod asked;
mod choice;
mod cursor;
mod dead;
mod domain;
mod frame;
mod index;
mod keyed;
mod made;
mod reason;
mod search;

pub use choice::{first, first_with};
pub use ent_plan::JoinPlan;
