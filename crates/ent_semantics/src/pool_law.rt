//! Laws of matching. Nothing here has a body; what holds is in the contracts.
ghost use Rattle.std.specs.Prelude.{◌≡◌, ◌↔◌, ℕ, Contains, List, Option, Some, slice_get};
ghost use Rattle.ent_value.specs.declared.value.Value.{Value};
ghost use Rattle.ent_semantics.specs.Entangled.{Valuation};
ghost use Rattle.ent_semantics.specs.Form.{Tables};
ghost use Rattle.ent_semantics.specs.declared.entangled.Atom.{Atom};
ghost use Rattle.ent_semantics.specs.Choice.{IsLeastChoiceIfAny};
ghost use Rattle.ent_semantics.specs.Component.{IsComponent, IsIn, IsInRemainder, IsSupported};
ghost use Rattle.ent_semantics.specs.Component.{SetOfTransactions};
ghost use Rattle.ent_semantics.specs.Pool.{CanMeet, Posted};

/// In the remainder each post unifies with a head of the remainder. It is the greatest such set.
#[tactic(auto, using(crate::proofs::Linked::within, crate::proofs::Linked::itself_supported))]
pub fn remainder_is_the_greatest()
    ensures supported { (pool : List Posted) (asker : Posted) (index : ℕ) (post : Atom Value)
        → IsInRemainder pool asker
        → slice_get asker.statement.posts index ≡ Some post
        → (owner : Posted) × IsInRemainder pool owner × CanMeet asker index owner }
    ensures greatest { (pool : List Posted) (among : SetOfTransactions) (member : Posted)
        → IsSupported pool among
        → IsIn pool among member
        → IsInRemainder pool member }
{}

/// Two components that share a statement have the same statements.
#[tactic(auto, using(crate::proofs::Linked::one_class))]
pub fn components_are_classes()
    ensures { (pool members others : List Posted) (shared member : Posted)
        → IsComponent pool members
        → IsComponent pool others
        → Contains members shared
        → Contains others shared
        → Contains members member ↔ Contains others member }
{}

/// What is the least choice, or that there is none, is determined.
#[tactic(auto, using(crate::proofs::Least::one_least))]
pub fn least_choice_is_one()
    ensures { (tables : Tables) (members : List Posted) (one other : Option (List Valuation))
        → IsLeastChoiceIfAny tables members one
        → IsLeastChoiceIfAny tables members other
        → one ≡ other }
{}
