//! Demands that some parties meet.
ghost use Rattle.std.specs.Prelude.{◌≡◌};
ghost use Rattle.ent_meetings.specs.PartyMeeting.{is_met};

use crate::party::Party;
use crate::pattern::Pattern;

/// Whether one of the parties offers what may meet the demand.
pub fn is_met(parties: &[Party], demand: &Pattern) -> bool
    ensures { result ≡ is_met parties.now demand.now }
{
    parties.iter().any(|party| party.offers(demand))
}
