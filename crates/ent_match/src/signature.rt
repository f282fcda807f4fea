//! Signatures of atoms: marks that tell most atoms apart that don't unify.
ghost use Rattle.std.specs.Prelude.{◌≡◌, ◌<◌, IfSome, fold};
ghost use Rattle.std.specs.Hash.FoldHasher as folding;
ghost use Rattle.ent_match.specs.Signature.{IsSignature, MarksToo, hashed_value, mark_of, mark_place};

use ent_group::{Row, with_mark};
use ent_semantics::{Atom, Term};
use ent_value::{Name, Value};
use std::hash::{FoldHasher, Hasher};

/// Hashes a value.
fn hash_value(hasher: &mut FoldHasher, value: &Value)
    ensures { hasher.new ≡ fold folding.write hasher.old (hashed_value value.now) }
{
    match value {
        Value::Int(number) => hasher.write_i64(*number),
        Value::Text(text) => hasher.write(text.as_bytes()),
    }
}

/// The place of the mark of atoms of a relation and a length that begin with a value.
fn mark_place(relation: &Name, length: usize, first: &Value) -> usize
    ensures value { result ≡ mark_place relation.now length first.now }
    ensures within { result < 64 }
{
    let mut hasher = FoldHasher::default();
    hasher.write(relation.as_bytes());
    hasher.write_usize(length);
    hash_value(&mut hasher, first);
    (hasher.finish() % 64) as usize
}

/// The place of an atom's mark; none where it has a mark at each place, since it begins with no value.
fn mark_of(atom: &Atom<Value>) -> Option<usize>
    ensures value { result ≡ mark_of atom.now }
    ensures within { IfSome result (λ place. place < 64) }
{
    match atom.terms.get(0) {
        Some(Term::Known(first)) => Some(mark_place(&atom.relation, atom.terms.len(), first)),
        _ => None,
    }
}

/// A row with the marks of an atom too.
fn with_marks_of(row: Row, atom: &Atom<Value>) -> Row
    ensures { MarksToo atom.now row result }
{
    match mark_of(atom) {
        Some(place) => with_mark(row, place),
        None => Row::MAX,
    }
}

/// The marks of atoms. Where an atom unifies with another one, their signatures have a mark at one place.
pub(crate) fn signature_of(atoms: &[Atom<Value>]) -> Row
    ensures { IsSignature atoms.now result }
{
    let mut row = 0;
    for atom in atoms {
        row = with_marks_of(row, atom);
    }
    row
}
