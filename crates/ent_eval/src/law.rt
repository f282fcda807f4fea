//! Laws of jobs. Nothing here has a body; what holds is in the contracts.
ghost use Rattle.std.specs.Prelude.{List};
ghost use Rattle.ent_tree.specs.declared.declaration.Create.{Create};
ghost use Rattle.ent_semantics.specs.Form.{Tables};
ghost use Rattle.ent_semantics.specs.Component.{IsComponent};
ghost use Rattle.ent_semantics.specs.Pool.{IsSafe, Posted};
ghost use Rattle.ent_protocol.specs.Member.{seen_now};
ghost use Rattle.ent_protocol.specs.State.{Use};
ghost use Rattle.ent_job.specs.Work.{StandAtNumbers};

/// The tables that are lent for uses stand at their numbers.
#[tactic(auto, using(crate::proofs::Standing::lent_stand))]
pub fn lent_tables_stand()
    ensures { (declared : List Create) (tables : Tables) (uses : List Use)
        → StandAtNumbers (seen_now declared tables uses) }
{}

/// A component of a pool is a component of the pool that it makes alone, which is safe where the other one is.
#[tactic(auto, using(crate::proofs::Alone::component_alone, crate::proofs::Alone::safe_alone))]
pub fn components_stand_alone()
    ensures component { (pool members : List Posted) → IsComponent pool members → IsComponent members members }
    ensures safe { (pool members : List Posted) → IsComponent pool members → IsSafe pool → IsSafe members }
{}
