//! Laws of states that are reached. What holds is in the contracts.
ghost use Rattle.std.specs.Prelude.{◌≡◌, Contains, Ok};
ghost use Rattle.ent_plan.specs.Ranged.{AreRanged};
ghost use Rattle.ent_plan.specs.Plan.{HaveDistinctHeads};
ghost use Rattle.ent_protocol.specs.Member.{pool};
ghost use Rattle.ent_protocol.specs.Reached.{IsReached};
ghost use Rattle.ent_protocol.specs.Run.{Forms};
ghost use Rattle.ent_protocol.specs.State.{State, Submitted};
ghost use Rattle.ent_headline.specs.Resolved.{resolved_forms};

use crate::{resolved_heads_are_distinct, resolved_variables_are_ranged};

/// In every state that is reached the form of each script that was submitted is what it resolves to over the opening.
pub fn submitted_forms_are_resolved<F>()
    ensures { (forms : Forms F) (s : State) (own : Submitted)
        → IsReached forms s
        → Contains s.submitted own
        → forms.resolve s.opening own.script ≡ Ok own.form }
{}

/// In every state that is reached by scripts resolved over their opening, the heads of each statement in the pool are
/// of distinct relations.
pub fn posted_heads_are_distinct()
    ensures { (s : State) → IsReached resolved_forms s → HaveDistinctHeads (pool s) }
{
    resolved_heads_are_distinct();
}

/// In every state that is reached by scripts resolved over their opening, each written variable of each statement in
/// the pool stands in a tuple of some sub-select.
pub fn posted_variables_are_ranged()
    ensures { (s : State) → IsReached resolved_forms s → AreRanged (pool s) }
{
    resolved_variables_are_ranged();
}
