//! Laws of SELECT.
ghost use Rattle.std.specs.Prelude.{◌≡◌, Ok, List};
ghost use Rattle.ent_value.specs.declared.value.Kind.{Kind};
ghost use Rattle.ent_tree.specs.declared.declaration.Create.{Create};
ghost use Rattle.ent_tree.specs.declared.select.Select.{Select as TreeSelect};
ghost use Rattle.ent_semantics.specs.declared.operand.Known.{Known};
ghost use Rattle.ent_semantics.specs.declared.statement.Select.{Select};
ghost use Rattle.ent_semantics.specs.Form.{Tables, known_worth, form_rows};
ghost use Rattle.ent_semantics.specs.Database.{Environment};
ghost use Rattle.ent_semantics.specs.Selection.{select_rows};
ghost use Rattle.ent_form.specs.Catalogue.{schemas_of};
ghost use Rattle.ent_form.specs.Kinds.{Bound};
ghost use Rattle.ent_form.specs.Ordinary.{select_in};
ghost use Rattle.ent_form.specs.Tables.{database_of, AreWide};

/// Over tables whose rows have a value for each column, a resolved SELECT has the rows that the SELECT has over the
/// same tables under their names.
pub fn resolved_selects_the_same()
    ensures { (creates : List Create) (tables : Tables) (environment : Environment) (bound : Bound)
        → (select : TreeSelect) (form : Select Known) (kinds : List Kind)
        → AreWide creates tables
        → select_in (schemas_of creates) bound select ≡ Ok (form, kinds)
        → select_rows creates (database_of creates tables) environment select
        ≡ form_rows (known_worth environment) tables form }
{}
