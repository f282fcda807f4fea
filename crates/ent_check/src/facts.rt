//! What an entangled statement offers, demands and binds under a grounding.
ghost use Rattle.std.specs.Prelude.{◌≡◌, IfOk, map};
ghost use Rattle.ent_semantics.specs.Form.{atom_fact, form_bound};
ghost use Rattle.ent_ordinary.specs.Worth.{itself};

use crate::term::{term_value, terms_row};
use ent_semantics::{Atom, Entangled, Fact};
use ent_tree::Duplicate;
use ent_value::{Name, Sequence, Value};
use std::alloc::{AllocError, Global};

/// The facts that atoms are under a grounding: of its heads what a statement offers, of its posts what it demands.
pub fn facts_of(
    alloc: Global,
    grounding: &[Value],
    atoms: &[Atom<Value>],
) -> Result<Sequence<Fact>, AllocError>
    ensures { IfOk result (λ facts. facts ≡ map (atom_fact itself grounding.now) atoms.now) }
{
    let mut facts = Vec::with_capacity(alloc, atoms.len())?;
    for atom in atoms {
        let relation = atom.relation.copy(alloc)?;
        let values = terms_row(alloc, grounding, &atom.terms)?;
        facts.push(Fact { relation, values })?;
    }
    Ok(Sequence::from_vec(facts))
}

/// The host variables that a statement binds under a grounding, each with its value.
pub fn bindings_of(
    alloc: Global,
    grounding: &[Value],
    statement: &Entangled<Value>,
) -> Result<Vec<(Name, Value)>, AllocError>
    ensures { IfOk result (λ bound. bound.items ≡ form_bound itself statement.now grounding.now) }
{
    let none = Value::Int(0);
    let mut bound = Vec::with_capacity(alloc, statement.binds.len())?;
    for bind in statement.binds.as_slice() {
        let variable = bind.variable.copy(alloc)?;
        let value = term_value(grounding, &bind.term, &none).copy(alloc)?;
        bound.push((variable, value))?;
    }
    Ok(bound)
}
