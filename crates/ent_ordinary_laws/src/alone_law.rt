//! What becomes of an ordinary script that runs alone.
ghost use Rattle.std.specs.Prelude.{◌≡◌, ◌<◌, ℕ, false, [], ◌∷◌};
ghost use Rattle.ent_protocol.specs.Reached.{IsReached, LeadsTo};
ghost use Rattle.ent_protocol.specs.Run.{Forms};
ghost use Rattle.ent_protocol.specs.State.{Dormant, State};
ghost use Rattle.ent_protocol_laws.specs.Tries.{tries_left};
ghost use Rattle.ent_ordinary_laws.specs.Alone.{HasEndedItself, IsOrdinary};

use ent_protocol::reached_states_are_tidy;
use ent_protocol_laws::steps_go_on;

/// If one transaction waits for a run, alone, and its script is ordinary, then the run that it gets ends it: it has
/// committed, rolled back or failed, and nothing waits for another run. No script comes in meanwhile.
pub fn ordinary_scripts_end_alone<F>()
    ensures ended { (forms : Forms F) (count : ℕ) (s last : State) (one : Dormant)
        → IsReached forms s
        → s.running ≡ false
        → s.dormant ≡ one ∷ []
        → IsOrdinary s one.tx
        → LeadsTo forms count s last
        → last.submitted ≡ s.submitted
        → last.running ≡ false
        → tries_left last < tries_left s
        → HasEndedItself last.fates one.tx }
    ensures none_waits { (forms : Forms F) (count : ℕ) (s last : State) (one : Dormant)
        → IsReached forms s
        → s.running ≡ false
        → s.dormant ≡ one ∷ []
        → IsOrdinary s one.tx
        → LeadsTo forms count s last
        → last.submitted ≡ s.submitted
        → last.running ≡ false
        → tries_left last < tries_left s
        → last.dormant ≡ [] }
{
    reached_states_are_tidy::<F>();
    steps_go_on::<F>();
}
