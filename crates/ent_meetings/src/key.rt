//! The keys under which patterns are posted.
ghost use Rattle.std.specs.Prelude.{◌≡◌, None, fold, slice_index_or};
ghost use Rattle.std.specs.Hash.FoldHasher as folding;
ghost use Rattle.std.specs.Option.{option_copied};
ghost use Rattle.ent_meetings.specs.Keys.{hashed_term, key, key_at, unknown_at};

use crate::Pattern;
use ent_value::{Name, Value};
use std::hash::{FoldHasher, Hasher};

/// Hashes what is known of a term.
fn hash_term(hasher: &mut FoldHasher, term: Option<&Value>)
    ensures { hasher.new ≡ fold folding.write hasher.old (hashed_term (option_copied term.entry)) }
{
    match term {
        None => hasher.write_u8(0),
        Some(Value::Int(number)) => {
            hasher.write_u8(1);
            hasher.write_i64(*number);
        }
        Some(Value::Text(text)) => {
            hasher.write_u8(2);
            hasher.write(text.as_bytes());
        }
    }
}

/// The key of what is known at a place of patterns of a relation and a length.
fn key(relation: &Name, length: usize, place: usize, term: Option<&Value>) -> u64
    ensures { result ≡ key relation.now length place (option_copied term.entry) }
{
    let mut hasher = FoldHasher::default();
    hasher.write(relation.as_bytes());
    hasher.write_usize(length);
    hasher.write_usize(place);
    hash_term(&mut hasher, term);
    hasher.finish()
}

/// What is known of a pattern's term at a place; behind the last, nothing.
pub(crate) fn known_at(pattern: &Pattern, place: usize) -> Option<&Value>
    ensures { option_copied result ≡ slice_index_or pattern.now.terms place None }
{
    match pattern.terms.get(place) {
        Some(term) => term.as_ref(),
        None => None,
    }
}

/// The key of a place of a pattern. Behind its last term nothing is known, so all of its relation and length have one
/// key there.
pub(crate) fn key_at(pattern: &Pattern, place: usize) -> u64
    ensures { result ≡ key_at pattern.now place }
{
    key(
        &pattern.relation,
        pattern.terms.len(),
        place,
        known_at(pattern, place),
    )
}

/// The key of a place of a pattern at which nothing is known.
pub(crate) fn unknown_at(pattern: &Pattern, place: usize) -> u64
    ensures { result ≡ unknown_at pattern.now place }
{
    key(&pattern.relation, pattern.terms.len(), place, None)
}
