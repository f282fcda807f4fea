//! The feed tells who ended otherwise than by a commit.
ghost use Rattle.std.specs.Prelude.{◌≡◌, ◌++◌, ℕ, []};
ghost use Rattle.ent_admission.specs.Acts.{Happens};
ghost use Rattle.ent_admission.specs.Admission.{Admission, IsAllTold};
ghost use Rattle.ent_admission.specs.Moves.{Chain};
ghost use Rattle.ent_ending_laws.specs.Endings.{HasToldEndings, HasToldThem, endings};

/// Whatever happens, by acts and by clients' calls, over epochs too: the tickets that the groups tell since then, and
/// behind them those that aren't told yet, are those that weren't told then, and those that ended since, in order, each
/// as often as it ended. Where all is told, then and now, the groups tell exactly those that ended since.
pub fn feeds_tell_who_ended()
    ensures so_far { (count : ℕ) (first last : Admission) (happened : Chain Happens count first last)
        → HasToldEndings first last (endings count first last happened) }
    ensures at_rest { (count : ℕ) (first last : Admission) (happened : Chain Happens count first last)
        → IsAllTold first
        → IsAllTold last
        → HasToldThem first last (endings count first last happened) }
{}
