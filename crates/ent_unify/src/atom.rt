//! Whether two atoms unify.
ghost use Rattle.std.specs.Prelude.{◌≡◌, ◌↔◌, IsTrue, false};
ghost use Rattle.ent_semantics.specs.Pool.{Unify};
ghost use Rattle.ent_unify.specs.Unifier.{AreApart};

use crate::tuple::Tuple;
use ent_semantics::Atom;
use ent_value::{Kind, Value};

pub(crate) fn has_relation_of(atom: &Atom<Value>, other: &Atom<Value>) -> bool
    ensures { IsTrue result ↔ (atom.now.relation ≡ other.now.relation) }
{
    atom.relation == other.relation
}

/// Whether some values of their variables make two atoms equal. Each atom comes with the kinds of its statement's
/// variables; the variables of the two are different ones. Where it answers no, not even values beyond the bounds of
/// their kinds make them equal. It takes no memory.
pub fn unifies(atom: &Atom<Value>, kinds: &[Kind], other: &Atom<Value>, others: &[Kind]) -> bool
    ensures unify { IsTrue result ↔ Unify kinds.now atom.now others.now other.now }
    ensures apart { result ≡ false → AreApart kinds.now atom.now others.now other.now }
{
    if atom.terms.len() != other.terms.len() {
        return false;
    }
    let left = Tuple {
        member: 0,
        kinds,
        terms: atom.terms.as_slice(),
    };
    let right = Tuple {
        member: 1,
        kinds: others,
        terms: other.terms.as_slice(),
    };
    if left.has_column_apart(right) {
        return false;
    }
    if !has_relation_of(atom, other) {
        return false;
    }
    let none = Value::Int(0);
    left.unifies(right, &none)
}
