//! Whether those of an index need nobody else.
ghost use Rattle.std.specs.Prelude.{◌≡◌, IfOk, false, true};
ghost use Rattle.ent_meetings.specs.PartyMeeting.{IsClosed};
ghost use Rattle.ent_meetings.specs.Waiting.{named};

use crate::group::first_unmet;
use crate::index::Index;
use std::alloc::{AllocError, Global};

impl Index {
    /// Whether each demand of those who wait under these tickets may be met by one of them.
    #[tactic(auto, using(crate::proofs::Waiters::closed_by, crate::proofs::Waiters::unmet_opens))]
    pub fn is_closed(&self, alloc: Global, tickets: &[u64]) -> Result<bool, AllocError>
        ensures closed { IfOk result (λ closed. closed ≡ true → IsClosed (named self.now tickets.now)) }
        ensures open { IfOk result (λ closed. closed ≡ false → ¬ IsClosed (named self.now tickets.now)) }
    {
        let parties = self.parties(alloc, tickets)?;
        Ok(first_unmet(parties.as_slice()).is_none())
    }
}
