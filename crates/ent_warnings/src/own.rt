//! Demands that only the row of their own statement may meet.
use crate::postcondition::Postcondition;
use ent_meetings::{Party, Pattern};
use ent_tree::{Condition, Entangled, Script, Statement};
use std::alloc::{AllocError, Global};

/// The demands of a script, of this index, that its own statement's offers may meet, and no other script's.
pub(crate) fn met_by_own<'a>(
    alloc: Global,
    script: &'a Script,
    parties: &[Party],
    index: usize,
) -> Result<Vec<Postcondition<'a>>, AllocError> {
    let mut met = Vec::new(alloc);
    let Some(party) = parties.get(index) else {
        return Ok(met);
    };
    let written = Postcondition::all_of(alloc, script)?;
    let (mut offers, mut demands) = (0usize, 0usize);
    for statement in script.statements.as_slice() {
        if let Statement::Entangled(asked) = statement {
            let behind_offers = offers.saturating_add(asked.relations.len());
            let behind_demands = demands.saturating_add(demands_of(asked));
            let own = party
                .offers
                .as_slice()
                .get(offers..behind_offers)
                .unwrap_or(&[]);
            for place in demands..behind_demands {
                if let (Some(postcondition), Some(demand)) = (
                    written.get(place),
                    party.demands.get(place),
                )
                    && may_meet(own, demand)
                    && !is_met_by_others(parties, index, demand)
                {
                    met.push(*postcondition)?;
                }
            }
            offers = behind_offers;
            demands = behind_demands;
        }
    }
    Ok(met)
}

/// How many demands an entangled statement has.
fn demands_of(asked: &Entangled) -> usize {
    let conditions = asked.conditions.as_slice().iter();
    conditions
        .filter(|condition| matches!(condition, Condition::InAnswer(..)))
        .count()
}

/// Whether one of these offers may meet the demand.
fn may_meet(offers: &[Pattern], demand: &Pattern) -> bool {
    offers.iter().any(|offer| demand.may_meet(offer))
}

/// Whether another party than that of this index offers what may meet the demand.
fn is_met_by_others(parties: &[Party], index: usize, demand: &Pattern) -> bool {
    for (place, party) in parties.iter().enumerate() {
        if place != index && party.offers(demand) {
            return true;
        }
    }
    false
}
