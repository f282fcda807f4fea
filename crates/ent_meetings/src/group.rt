//! What the parties of a set demand of each other.
ghost use Rattle.std.specs.Prelude.{◌≡◌, ◌≤◌, ◌+◌, ◌==◌, ◌++◌, ◌∷◌, [], not, min, nat_lt};
ghost use Rattle.std.specs.List.{count_by, find, list_any};
ghost use Rattle.std.specs.Option.{option_copied};
ghost use Rattle.ent_meetings.specs.PartyMeeting.{is_met, offers, ways};
ghost use Rattle.ent_meetings.specs.Pattern.{may_meet};
ghost use Rattle.ent_meetings.specs.Group.{first_unmet, is_crowded, is_served_once, may_come, seen, serves};

use crate::{Party, Pattern};

/// Whether one of the parties may offer what is demanded.
pub(crate) fn is_met(parties: &[&Party], demand: &Pattern) -> bool
    ensures { result ≡ is_met (seen parties.now) demand.now }
{
    for party in parties {
        if party.offers(demand) {
            return true;
        }
    }
    false
}

/// The first demand of a party that none of the parties may meet.
fn first_unmet_of<'a>(parties: &[&Party], party: &'a Party) -> Option<&'a Pattern>
    ensures { option_copied result ≡ find (λ demand. not (is_met (seen parties.now) demand)) party.now.demands }
{
    party.demands.iter().find(|demand| !is_met(parties, demand))
}

/// The first demand of the parties that none of them may meet.
pub(crate) fn first_unmet<'a>(parties: &[&'a Party]) -> Option<&'a Pattern>
    ensures { option_copied result ≡ first_unmet (seen parties.now) }
{
    for party in parties {
        let unmet = first_unmet_of(parties, party);
        if unmet.is_some() {
            return unmet;
        }
    }
    None
}

/// How many offers of a party may meet a demand, beside those that were counted; of more than two only two count.
fn more_ways(party: &Party, demand: &Pattern, counted: u8) -> u8
    requires { counted ≤ 2 }
    ensures { result ≡ min 2 (counted + count_by (may_meet demand.now) party.now.offers) }
{
    let mut ways = counted;
    for offer in party.offers.as_slice() {
        if ways < 2 && demand.may_meet(offer) {
            ways += 1;
        }
    }
    ways
}

/// How many offers of the parties may meet a demand; of more than two only two count.
pub(crate) fn ways(parties: &[&Party], demand: &Pattern) -> u8
    ensures { result ≡ min 2 (ways (seen parties.now) demand.now) }
{
    let mut counted = 0;
    for party in parties {
        counted = more_ways(party, demand, counted);
    }
    counted
}

/// Whether two offers of the parties may meet one demand of a party.
fn is_crowded_for(parties: &[&Party], party: &Party) -> bool
    ensures { result ≡ list_any (λ demand. nat_lt 1 (ways (seen parties.now) demand)) party.now.demands }
{
    party.demands.iter().any(|demand| ways(parties, demand) > 1)
}

/// Whether two offers of the parties may meet one demand of theirs.
pub(crate) fn is_crowded(parties: &[&Party]) -> bool
    ensures { result ≡ is_crowded (seen parties.now) }
{
    for party in parties {
        if is_crowded_for(parties, party) {
            return true;
        }
    }
    false
}

/// Whether one offer alone may meet a demand, of those of the parties and of another one.
fn is_met_once(parties: &[&Party], party: &Party, demand: &Pattern) -> bool
    ensures { result ≡ (ways (seen parties.now ++ party.now ∷ []) demand.now == 1) }
{
    more_ways(party, demand, ways(parties, demand)) == 1
}

/// Whether one offer alone may meet each demand of a party, of those of the parties and of its own.
fn is_served_once(parties: &[&Party], party: &Party) -> bool
    ensures { result ≡ is_served_once (seen parties.now) party.now }
{
    party
        .demands
        .iter()
        .all(|demand| is_met_once(parties, party, demand))
}

/// Whether a party offers what another one demands.
fn serves_one(other: &Party, party: &Party) -> bool
    ensures { result ≡ list_any (λ demand. offers demand party.now) other.now.demands }
{
    other.demands.iter().any(|demand| party.offers(demand))
}

/// Whether a party offers what one of the parties demands.
fn serves(parties: &[&Party], party: &Party) -> bool
    ensures { result ≡ serves (seen parties.now) party.now }
{
    for other in parties {
        if serves_one(other, party) {
            return true;
        }
    }
    false
}

/// Whether a party may come to the parties: one offer alone may meet each of its demands, and it offers nothing that
/// they demand.
pub(crate) fn may_come(parties: &[&Party], party: &Party) -> bool
    ensures { result ≡ may_come (seen parties.now) party.now }
{
    is_served_once(parties, party) && !serves(parties, party)
}
