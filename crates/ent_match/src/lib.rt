//! A pool of posted entangled statements that stays safe, and its components.
//!
//! A caller may rely on it that a statement is posted exactly where each post of the pool still unifies with the heads
//! of one statement at most, that what it would meet else is named, and that the components are components of the
//! pool, which hold each statement of its remainder. They can be found without sharing a statement, by the places of
//! their first ones. A part of the pool that nothing joins to the rest has by itself the components of the pool that
//! have a member in it.
#![tactic(auto)]

mod components;
mod demand;
mod fault;
mod label;
mod law;
mod link;
mod meets;
mod offers;
mod place;
mod pool;
mod posted;
mod remainder;
mod signature;

pub use components::{begins_at, component_at, is_component_at};
pub use demand::{Demand, demand_of};
pub use fault::{PostFault, Unsafe};
pub use law::{parts_are_apart, same_statements_are_alike};
pub use place::place_of;
pub use pool::Pool;
pub use posted::Posted;
