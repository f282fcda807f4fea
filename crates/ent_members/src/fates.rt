//! Fates in order of numbers.
ghost use Rattle.std.specs.Prelude.{◌≡◌, IfOk};
ghost use Rattle.ent_protocol.specs.State.{by_number};

use ent_semantics::Fated;
use std::alloc::{AllocError, Global};

/// The fates in order of their transactions' numbers.
pub(crate) fn fates_by_number(alloc: Global, fates: &[Fated]) -> Result<Vec<Fated>, AllocError>
    ensures { IfOk result (λ sorted. sorted.items ≡ by_number (λ fated. fated.tx) fates.now) }
{
    let mut sorted = Vec::with_capacity(alloc, fates.len())?;
    for fated in fates {
        sorted.push(*fated)?;
    }
    // of fates of one number, of which there are none, the last would be first
    sorted.reverse();
    sorted.sort_by_key(|fated| fated.tx)?;
    Ok(sorted)
}
