//! Names that are nearly another.
use std::alloc::{AllocError, Global};
use strsim::osa_distance;

/// The least length of a name that is taken for another with one letter changed: shorter ones all differ by little.
const LEAST_LENGTH: usize = 3;

/// The first of some names that is the same in another case; else the first that differs by one letter: one more, one
/// less, another one, or two beside each other exchanged.
pub fn nearest<'a>(
    alloc: Global,
    name: &str,
    others: &[&'a str],
) -> Result<Option<&'a str>, AllocError> {
    for other in others {
        if *other != name && name.eq_ignore_ascii_case(other) {
            return Ok(Some(*other));
        }
    }
    if name.len() < LEAST_LENGTH {
        return Ok(None);
    }
    for other in others {
        let is_long = *other != name && other.len() >= LEAST_LENGTH;
        if is_long && osa_distance(alloc, name, other)? <= 1 {
            return Ok(Some(*other));
        }
    }
    Ok(None)
}

/// The hint that another name was meant, if one is near.
pub(crate) fn meant(
    alloc: Global,
    name: &str,
    others: &[&str],
) -> Result<Option<String>, AllocError> {
    match nearest(alloc, name, others)? {
        Some(other) => Ok(Some(format!(in alloc; "did you mean {other}?")?)),
        None => Ok(None),
    }
}
