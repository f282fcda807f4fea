//! What entangled statements offer and demand.
ghost use Rattle.std.specs.Prelude.{◌≡◌, IfOk};
ghost use Rattle.ent_semantics.specs.Form.{form_heads, form_posts};
ghost use Rattle.ent_ordinary.specs.Worth.{itself};

use crate::{StatementOffer, facts_of};
use ent_semantics::Entangled;
use ent_value::Value;
use std::alloc::{AllocError, Global};

/// What a closed entangled statement offers and demands under a grounding.
pub(crate) fn offer_under(
    alloc: Global,
    tx: u64,
    place: u64,
    entangled: &Entangled<Value>,
    grounding: &[Value],
) -> Result<StatementOffer, AllocError>
    ensures { IfOk result (λ offer. offer ≡ record {
      tx = tx;
      place = place;
      heads = form_heads itself entangled.now grounding.now;
      posts = form_posts itself entangled.now grounding.now;
    }) }
{
    let heads = facts_of(alloc, grounding, entangled.heads.as_slice())?;
    let posts = facts_of(alloc, grounding, entangled.posts.as_slice())?;
    Ok(StatementOffer {
        tx,
        place,
        heads,
        posts,
    })
}
