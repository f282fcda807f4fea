//! What is closed, and lists of it.
ghost use Rattle.std.specs.Prelude.{◌≡◌, IfOk, map};
ghost use Rattle.ent_closing.specs.Environment.{environment_of};

use crate::environment::Environment;
use ent_value::{Limited, Sequence};
use std::alloc::{AllocError, Global};

/// What may name host variables.
pub(crate) trait Closing {
    type Closed: Drop;

    ghost use Rattle.ent_semantics.specs.Database.{Environment as Bound};

    ghost closing: { Bound → Self → Self.Closed };

    /// The same with the values of host variables in their place.
    fn closed(&self, alloc: Global, environment: &Environment) -> Result<Self::Closed, AllocError>
        ensures { IfOk result (λ closed. closed ≡ closing (environment_of environment.now) self.now) };
}

pub(crate) fn closed_sequence<T: Closing>(
    alloc: Global,
    environment: &Environment,
    list: &Sequence<T>,
) -> Result<Sequence<T::Closed>, AllocError>
    ensures { IfOk result (λ closed. closed ≡ map (T.closing (environment_of environment.now)) list.now) }
{
    let mut closed = Vec::with_capacity(alloc, list.len())?;
    for element in list.as_slice() {
        closed.push(element.closed(alloc, environment)?)?;
    }
    Ok(Sequence::from_vec(closed))
}

pub(crate) fn closed_list<T: Closing, const LIMIT: usize>(
    alloc: Global,
    environment: &Environment,
    list: &Limited<T, LIMIT>,
) -> Result<Limited<T::Closed, LIMIT>, AllocError>
    ensures { IfOk result (λ closed. closed ≡ map (T.closing (environment_of environment.now)) list.now) }
{
    let mut closed = Limited::with_capacity(alloc, list.len())?;
    for element in list.as_slice() {
        closed.push(element.closed(alloc, environment)?)?;
    }
    Ok(closed)
}
