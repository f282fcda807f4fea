//! Laws of entangled statements.
ghost use Rattle.std.specs.Prelude.{◌≡◌, true, List, Ok};
ghost use Rattle.ent_value.specs.Value.{kinds_of};
ghost use Rattle.ent_tree.specs.declared.entangled.Entangled.{Entangled as TreeEntangled};
ghost use Rattle.ent_semantics.specs.Closing.{closed_entangled};
ghost use Rattle.ent_semantics.specs.Form.{Tables, is_form_grounding};
ghost use Rattle.ent_semantics.specs.declared.entangled.Entangled.{Entangled};
ghost use Rattle.ent_semantics.specs.declared.operand.Known.{Known};
ghost use Rattle.ent_semantics.specs.Database.{Environment};
ghost use Rattle.ent_semantics.specs.Entangled.{Valuation};
ghost use Rattle.ent_form.specs.declared.catalogue.TableSchema.{TableSchema};
ghost use Rattle.ent_form.specs.Entangled.{entangled_in};
ghost use Rattle.ent_form.specs.Kinds.{Bound};
ghost use Rattle.ent_form.specs.TableKinds.{AreKinded, HasKinds};

use ent_semantics::{closing_keeps_the_meaning, results_are_of_item_kinds};

/// Over tables and host variables of their kinds, each value of a grounding of a resolved statement is of its
/// variable's kind: each written variable stands in a sub-select's tuple, and is demanded there in this kind.
pub fn groundings_are_of_their_kinds()
    ensures { (schemas : List TableSchema) (bound after : Bound) (entangled : TreeEntangled)
        → (form : Entangled Known) (environment : Environment) (tables : Tables) (valuation : Valuation)
        → entangled_in schemas bound entangled ≡ Ok (form, after)
        → AreKinded schemas tables
        → HasKinds bound environment
        → is_form_grounding (λ value. value) tables (closed_entangled environment form) valuation ≡ true
        → kinds_of valuation ≡ form.variables }
{
    closing_keeps_the_meaning();
    results_are_of_item_kinds();
}
