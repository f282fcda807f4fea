//! What scripts offer and demand.
ghost use Rattle.std.specs.Prelude.{◌≡◌, IfOk, map};
ghost use Rattle.ent_meetings.specs.Party.{party_of};
ghost use Rattle.ent_warnings.specs.Offered.{asks_for, is_demanded, is_named, names};

use ent_meetings::Party;
use ent_tree::Script;
use ent_value::Name;
use std::alloc::{AllocError, Global};

/// What each script offers and demands.
pub(crate) fn parties_of(alloc: Global, scripts: &[Script]) -> Result<Vec<Party>, AllocError>
    ensures { IfOk result (λ parties. parties.items ≡ map party_of scripts.now) }
{
    let mut parties = Vec::with_capacity(alloc, scripts.len())?;
    for script in scripts {
        parties.push(Party::of(alloc, script)?)?;
    }
    Ok(parties)
}

/// Whether a party offers rows of a relation.
fn names(relation: &Name, party: &Party) -> bool
    ensures { result ≡ names relation.now party.now }
{
    party.offers.iter().any(|offer| offer.relation == *relation)
}

/// Whether one of the parties does.
pub(crate) fn is_named(parties: &[Party], relation: &Name) -> bool
    ensures { result ≡ is_named parties.now relation.now }
{
    parties.iter().any(|party| names(relation, party))
}

/// Whether a party demands rows of a relation.
fn asks_for(relation: &Name, party: &Party) -> bool
    ensures { result ≡ asks_for relation.now party.now }
{
    party
        .demands
        .iter()
        .any(|demand| demand.relation == *relation)
}

/// Whether one of the parties does.
pub(crate) fn is_demanded(parties: &[Party], relation: &Name) -> bool
    ensures { result ≡ is_demanded parties.now relation.now }
{
    parties.iter().any(|party| asks_for(relation, party))
}
