//! Scripts that need more others than a run has room for.
use ent_group::MOST_MEMBERS;
use ent_meetings::{Party, Pattern};
use std::alloc::{AllocError, Global};

/// Whether a script can commit only together with more scripts than a run has room for. It needs who alone may meet a
/// demand of it, and so does each of those whom it needs.
pub(crate) fn needs_too_many(
    alloc: Global,
    parties: &[Party],
    script: usize,
) -> Result<bool, AllocError> {
    let mut needed = Vec::new(alloc);
    needed.push(script)?;
    for place in 0..MOST_MEMBERS {
        let Some(one) = needed.get(place).copied() else {
            return Ok(false);
        };
        add_needed(&mut needed, parties, one)?;
        if needed.len() > MOST_MEMBERS {
            return Ok(true);
        }
    }
    Ok(false)
}

/// Adds those whom a script needs, unless they are there.
fn add_needed(needed: &mut Vec<usize>, parties: &[Party], one: usize) -> Result<(), AllocError> {
    let Some(party) = parties.get(one) else {
        return Ok(());
    };
    for demand in party.demands.iter() {
        if let Some(other) = sole_offerer(parties, demand)
            && !needed.contains(&other)
        {
            needed.push(other)?;
        }
    }
    Ok(())
}

/// The only script that may offer what is demanded, where there is one and no other.
fn sole_offerer(parties: &[Party], demand: &Pattern) -> Option<usize> {
    let first = parties.iter().position(|party| party.offers(demand))?;
    let others = parties.get(first.saturating_add(1)..).unwrap_or(&[]);
    if others.iter().any(|party| party.offers(demand)) {
        return None;
    }
    Some(first)
}
