//! New rows that wake nobody.
ghost use Rattle.std.specs.Prelude.{◌≡◌, ℕ, List, true};
ghost use Rattle.std.specs.List.{AllByRecursion};
ghost use Rattle.ent_value.specs.declared.value.Value.{Value};
ghost use Rattle.ent_semantics.specs.Choice.{IsChoice};
ghost use Rattle.ent_semantics.specs.Entangled.{Valuation};
ghost use Rattle.ent_semantics.specs.Form.{Tables, is_form_grounding};
ghost use Rattle.ent_semantics.specs.Pool.{Posted};
ghost use Rattle.ent_semantics.specs.declared.entangled.Entangled.{Entangled};
ghost use Rattle.ent_wake_laws.specs.Wake.{HasWidths, Sleeps};

/// If each row that is new in a table is ruled out for every source that reads the table, then each grounding over the
/// new tables is one over the old; so statements that have a choice over the new tables had that choice before.
pub fn rows_that_are_ruled_out_wake_nobody()
    ensures groundings { (old new : Tables) (widths : List ℕ) (statement : Entangled Value) (values : Valuation)
        → HasWidths widths new
        → Sleeps widths old new statement
        → is_form_grounding (λ value. value) new statement values ≡ true
        → is_form_grounding (λ value. value) old statement values ≡ true }
    ensures choices { (old new : Tables) (widths : List ℕ) (members : List Posted) (groundings : List Valuation)
        → HasWidths widths new
        → AllByRecursion (λ (member : Posted). Sleeps widths old new member.statement) members
        → IsChoice new members groundings
        → IsChoice old members groundings }
{}
