//! The heads of some offers, in order.
ghost use Rattle.std.specs.Prelude.{◌≡◌, ◌||◌, IfOk, OnOk};
ghost use Rattle.std.specs.List.{list_any};
ghost use Rattle.ent_check.specs.Heads.{has};
ghost use Rattle.ent_history.specs.Post.{is_offered};
ghost use Rattle.ent_semantics.specs.declared.answer.Fact.{Fact as Stated};

use crate::offer::StatementOffer;
use ent_semantics::Fact;
use ent_value::{Name, Row};
use std::alloc::{AllocError, Global};
use std::collections::BTreeSet;

/// The heads of some offers, by relation and row.
pub(crate) type Heads<'a> = BTreeSet<(&'a Name, &'a Row)>;

/// Puts the heads of an offer to those that there are.
fn put<'a>(heads: &mut Heads<'a>, facts: &'a [Fact]) -> Result<(), AllocError>
    ensures { OnOk result ((post : Stated) → has heads.new post ≡ (has heads.old post || is_offered facts.now post)) }
{
    for fact in facts {
        heads.insert((&fact.relation, &fact.values))?;
    }
    Ok(())
}

/// The heads of offers.
pub(crate) fn heads_of<'a>(
    alloc: Global,
    offers: &'a [StatementOffer],
) -> Result<Heads<'a>, AllocError>
    ensures { IfOk result (λ heads. (post : Stated) → has heads post
        ≡ list_any (λ offer. is_offered offer.heads post) offers.now) }
{
    let mut heads = BTreeSet::new(alloc);
    for offer in offers {
        put(&mut heads, offer.heads.as_slice())?;
    }
    Ok(heads)
}

/// Whether a fact that is demanded is one of these heads.
pub(crate) fn is_head<'a>(heads: &Heads<'a>, post: &'a Fact) -> bool
    ensures { result ≡ has heads.now post.now }
{
    heads.contains(&(&post.relation, &post.values))
}
