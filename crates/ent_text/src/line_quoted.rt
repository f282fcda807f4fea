//! Texts in quotes.
ghost use Rattle.ent_value.specs.Refusal.{Gives};
ghost use Rattle.ent_text.specs.Pieces.{content_at};

use crate::line_fault::LineFault;
use crate::quoted_at;
use ent_value::Refusal;
use std::alloc::Global;

/// What stands in quotes, behind the opening one, and the bytes behind the closing one.
#[tactic(auto, unfolding(crate::specs::Pieces::content_at))]
pub(crate) fn content(alloc: Global, bytes: &[u8]) -> Result<(Vec<u8>, &[u8]), Refusal<LineFault>>
    ensures { Gives (λ x. (x.0.items, x.1.now)) result (content_at bytes.now) }
{
    match quoted_at(alloc, 0, 0, 0, bytes) {
        Ok(found) => Ok(found),
        Err(Refusal::Memory) => Err(Refusal::Memory),
        Err(Refusal::Fault(_)) => Err(Refusal::Fault(LineFault::Misfit)),
    }
}
