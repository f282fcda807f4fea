//! What is sought of those who wait.
ghost use Rattle.std.specs.Prelude.{◌≡◌};
ghost use Rattle.ent_meetings.specs.Sides.{fits};
ghost use Rattle.ent_meetings.specs.Waiting.{demands};

use crate::{Party, Pattern};

/// Who is sought.
#[derive(Clone, Copy, Debug, PartialEq, Eq)]
pub(crate) enum SoughtSide {
    /// Who offers what may meet a demand.
    Offers,
    /// Who demands what an offer may meet.
    Demands,
}

/// Whether a party demands what the offer may meet.
fn demands(party: &Party, offer: &Pattern) -> bool
    ensures { result ≡ demands offer.now party.now }
{
    party.demands.iter().any(|demand| demand.may_meet(offer))
}

/// Whether a party is one of those who are sought.
pub(crate) fn fits(side: SoughtSide, sought: &Pattern, party: &Party) -> bool
    ensures { result ≡ fits side sought.now party.now }
{
    match side {
        SoughtSide::Offers => party.offers(sought),
        SoughtSide::Demands => demands(party, sought),
    }
}
