//! Versions of a store that may go back.
ghost use Rattle.std.specs.Prelude.{◌≡◌, Some};
ghost use Rattle.ent_lists.specs.Elements.{In};
ghost use Rattle.ent_claim_laws.specs.Claims.{Claimant, Held, World};
ghost use Rattle.ent_claim_laws.specs.Step.{IsReached};

/// Whatever the store held at any time under one version was the same. A process that has claimed the store, and has
/// the version that the store has now, has in memory what the store holds.
pub fn versions_have_one_content<X>()
    ensures one { (content : X) (world : World X) (first second : Held X)
        → IsReached content world
        → In first world.was
        → In second world.was
        → first.version ≡ second.version
        → first ≡ second }
    ensures memory { (content : X) (world : World X) (own : Claimant X)
        → IsReached content world
        → world.claimants world.store.version.token ≡ Some own
        → own.number ≡ world.store.version.number
        → own.content ≡ world.store.content }
{}
