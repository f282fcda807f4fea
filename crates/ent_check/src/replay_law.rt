//! Laws, put together.
ghost use Rattle.std.specs.Prelude.{◌≡◌, ℕ, List, Ok};
ghost use Rattle.ent_tree.specs.declared.declaration.Create.{Create};
ghost use Rattle.ent_tree.specs.declared.script.Statement.{Statement as TreeStatement};
ghost use Rattle.ent_check.specs.Alike.{IsAlike};
ghost use Rattle.ent_check.specs.Closed.{IsSeated};
ghost use Rattle.ent_check.specs.Laws.{Laws};
ghost use Rattle.ent_semantics.specs.Closing.{closed};
ghost use Rattle.ent_semantics.specs.Form.{Tables};
ghost use Rattle.ent_semantics.specs.declared.operand.Known.{Known};
ghost use Rattle.ent_semantics.specs.declared.statement.Statement.{Statement};
ghost use Rattle.ent_form.specs.Catalogue.{schemas_of};
ghost use Rattle.ent_form.specs.Form.{statement_in};
ghost use Rattle.ent_form.specs.Kinds.{Bound};
ghost use Rattle.ent_form.specs.TableKinds.{AreKinded, HasKinds};
ghost use Rattle.ent_form.specs.Tables.{HaveDistinctColumns};
ghost use Rattle.ent_history.specs.Placed.{Placed, member_at};
ghost use Rattle.ent_semantics.specs.Database.{Environment};
ghost use Rattle.ent_semantics.specs.declared.answer.Answer.{Answer};

use ent_form::{
    effects_keep_kinds, groundings_are_of_their_kinds, kinded_tables_are_wide,
    resolved_grounds_the_same, resolved_means_the_same, resolved_offers_and_demands_the_same,
    resolved_statements_fit, variables_are_the_written_ones,
};
use ent_semantics::closing_keeps_the_meaning;

/// What a resolved statement comes to, its statement does; and it keeps kinds.
pub(crate) fn forms_run_as_statements()
    ensures { Laws }
{
    closing_keeps_the_meaning();
    effects_keep_kinds();
    groundings_are_of_their_kinds();
    kinded_tables_are_wide();
    resolved_grounds_the_same();
    resolved_means_the_same();
    resolved_offers_and_demands_the_same();
    resolved_statements_fit();
    variables_are_the_written_ones();
}

/// Of a statement without a fault of form, over tables and host variables of their kinds, what its form is found to be,
/// closed, the statement is found to be: the same comes first, and where nothing does it leaves and offers the same. An
/// entangled statement has to be a member of a joint answer.
pub fn statements_are_found_as_their_forms()
    ensures { (creates : List Create) → HaveDistinctColumns creates → (members : List Placed)
        → (tx place : ℕ) (bound after : Bound) (tree : TreeStatement) (form : Statement Known)
        → statement_in (schemas_of creates) bound tree ≡ Ok (form, after)
        → (answers : List Answer) (tables : Tables)
        → AreKinded (schemas_of creates) tables
        → (environment : Environment)
        → HasKinds bound environment
        → IsSeated (member_at members tx place) tree
        → IsAlike creates members tx place bound after tree (closed environment form) answers tables environment }
{
    forms_run_as_statements();
}
