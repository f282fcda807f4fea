//! The plan of the coordinating choices of posted statements.
//!
//! [`combine`] makes a [`JoinPlan`] of statements of a pool: each written variable is a value, or is of a class of
//! variables that have one value. The plan is exact: groundings make each post equal to a head exactly if the plan
//! makes them of one value for each class; and there is no plan exactly if no groundings make each post equal to a
//! head. The classes are numbered such that the lists of their values have the order of the choices.
#![tactic(auto)]

mod class;
mod join_plan;
mod law;
mod named;
mod pair;
mod slot;
mod table;

pub use join_plan::{JoinPlan, combine};
pub use law::{plan_has_the_choices, plan_keeps_the_order, plan_names_its_classes};
pub use slot::Slot;
