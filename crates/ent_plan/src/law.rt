//! Laws of plans. Nothing here has a body; what holds is in the contracts.
ghost use Rattle.std.specs.Prelude.{◌≡◌, ◌<◌, ◌↔◌, ℕ, Contains, List, length};
ghost use Rattle.std.specs.Cmp.Lexicographic.{slice_cmp};
ghost use Rattle.ent_value.specs.Value.{value_cmp};
ghost use Rattle.ent_value.specs.declared.value.Value.{Value};
ghost use Rattle.ent_semantics.specs.Entangled.{Valuation};
ghost use Rattle.ent_semantics.specs.Form.{Tables};
ghost use Rattle.ent_semantics.specs.Choice.{IsChoice, choice_cmp};
ghost use Rattle.ent_plan.specs.Plan.{IsGroundedSpread, IsPlan, Plan, all_slots, spread};
ghost use Rattle.ent_plan.specs.declared.slot.Slot.TheVariants.{Class};

/// The coordinating choices are the groundings that a plan makes of values for its classes.
#[tactic(auto, using(crate::proofs::Choices::choices))]
pub fn plan_has_the_choices()
    ensures { (tables : Tables) (plan : Plan) (groundings : List Valuation)
        → IsPlan plan
        → IsChoice tables plan.members groundings ↔ IsGroundedSpread tables plan groundings }
{}

/// Choices stand in the order of the values of the classes.
#[tactic(auto, using(crate::proofs::Order::kept_order))]
pub fn plan_keeps_the_order()
    ensures { (plan : Plan) (others values : List Value)
        → IsPlan plan
        → length others ≡ length plan.kinds
        → length values ≡ length plan.kinds
        → choice_cmp (spread plan others) (spread plan values) ≡ slice_cmp value_cmp others values }
{}

/// The number of a class that a slot names is one of the plan's.
pub fn plan_names_its_classes()
    ensures { (plan : Plan) (number : ℕ)
        → IsPlan plan
        → Contains (all_slots plan) (Class number)
        → number < length plan.kinds }
{}
