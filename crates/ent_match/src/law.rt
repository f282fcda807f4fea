//! Laws of pools. Nothing here has a body; what holds is in the contracts.
ghost use Rattle.std.specs.Prelude.{◌↔◌, Contains, List};
ghost use Rattle.ent_semantics.specs.Component.{IsComponent, IsInRemainder};
ghost use Rattle.ent_semantics.specs.Pool.{Posted, IsSafe, Unsafe, IsFirstUnsafe};
ghost use Rattle.ent_match.specs.Fault.{IsByNumber};
ghost use Rattle.ent_match.specs.Parts.{IsPart};
ghost use Rattle.ent_match.specs.Same.{SameStatements};

/// Pools of the same statements, in whatever order, are alike: one is safe where the other is, they have the same first
/// unsafe post, and the same components.
pub fn same_statements_are_alike()
    ensures safe { (pool other : List Posted) → SameStatements pool other → IsSafe pool → IsSafe other }
    ensures first_unsafe { (pool other : List Posted) (fault : Unsafe)
        → SameStatements pool other
        → IsFirstUnsafe pool fault
        → IsFirstUnsafe other fault }
    ensures component { (pool other members : List Posted)
        → SameStatements pool other
        → IsComponent pool members
        → IsComponent other members }
{}

/// A part of a pool remains by itself as it remains in the pool, and its components are components of the pool: all of
/// those with a member in it.
pub fn parts_are_apart()
    ensures remainder { (pool part : List Posted) (member : Posted)
        → IsByNumber pool
        → IsPart pool part
        → Contains part member
        → IsInRemainder pool member ↔ IsInRemainder part member }
    ensures component { (pool part members : List Posted)
        → IsByNumber pool
        → IsPart pool part
        → IsComponent part members
        → IsComponent pool members }
    ensures own_component { (pool part members : List Posted) (shared : Posted)
        → IsByNumber pool
        → IsPart pool part
        → IsComponent pool members
        → Contains members shared
        → Contains part shared
        → IsComponent part members }
    ensures part_of_part { (pool rest part : List Posted)
        → IsPart pool rest
        → IsPart rest part
        → IsPart pool part }
{}
