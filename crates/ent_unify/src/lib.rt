//! Unification of atoms of closed entangled statements.
//!
//! [`unify`] finds the classes of variables that must have one value where pairs of atoms are to be equal, and
//! [`unifies`] tells whether two atoms can be equal at all, without memory. A caller may rely on both being exact:
//! values make all pairs equal exactly where they agree within each class and with its constant, and the answer that
//! there are none is given exactly where there are none.
#![tactic(auto)]

mod atom;
mod equation;
mod side;
mod tuple;
mod unifier;
mod variable;

pub use atom::unifies;
pub use unifier::{ClassBinding, MemberAtom, Unifier, unify};
pub use variable::{Representative, Variable};
