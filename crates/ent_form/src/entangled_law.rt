//! Laws of entangled statements.
ghost use Rattle.std.specs.Prelude.{◌≡◌, Ok, List, length};
ghost use Rattle.ent_value.specs.declared.value.Value.{Value};
ghost use Rattle.ent_tree.specs.declared.declaration.Create.{Create};
ghost use Rattle.ent_tree.specs.declared.entangled.Entangled.{Entangled as TreeEntangled};
ghost use Rattle.ent_semantics.specs.declared.entangled.Entangled.{Entangled};
ghost use Rattle.ent_semantics.specs.declared.operand.Known.{Known};
ghost use Rattle.ent_semantics.specs.Form.{Tables, known_worth, form_heads, form_posts, form_bound, is_form_grounding};
ghost use Rattle.ent_semantics.specs.Database.{Environment};
ghost use Rattle.ent_semantics.specs.Entangled.{Valuation, written_variables, heads, posts, bound_values};
ghost use Rattle.ent_semantics.specs.Entangled.{is_grounding};
ghost use Rattle.ent_form.specs.declared.catalogue.TableSchema.{TableSchema};
ghost use Rattle.ent_form.specs.Catalogue.{schemas_of};
ghost use Rattle.ent_form.specs.Entangled.{variables_of, entangled_in};
ghost use Rattle.ent_form.specs.Kinds.{Bound};
ghost use Rattle.ent_form.specs.Tables.{database_of, AreWide};

/// The variables of the form are the written variables of the statement, in the same order.
pub fn variables_are_the_written_ones()
    ensures names { (entangled : TreeEntangled) → variables_of entangled ≡ written_variables entangled }
    ensures kinds { (tables : List TableSchema) (bound after : Bound) (entangled : TreeEntangled)
        → (form : Entangled Known)
        → entangled_in tables bound entangled ≡ Ok (form, after)
        → length form.variables ≡ length (written_variables entangled) }
{}

/// Under a value for each written variable, the form has the heads, the posts and the bound values of the statement.
pub fn resolved_offers_and_demands_the_same()
    ensures heads { (tables : List TableSchema) (bound after : Bound) (entangled : TreeEntangled)
        → (form : Entangled Known) (environment : Environment) (valuation : Valuation)
        → entangled_in tables bound entangled ≡ Ok (form, after)
        → length valuation ≡ length (written_variables entangled)
        → heads environment entangled valuation ≡ form_heads (known_worth environment) form valuation }
    ensures posts { (tables : List TableSchema) (bound after : Bound) (entangled : TreeEntangled)
        → (form : Entangled Known) (environment : Environment) (valuation : Valuation)
        → entangled_in tables bound entangled ≡ Ok (form, after)
        → length valuation ≡ length (written_variables entangled)
        → posts environment entangled valuation ≡ form_posts (known_worth environment) form valuation }
    ensures bound { (tables : List TableSchema) (bound after : Bound) (entangled : TreeEntangled)
        → (form : Entangled Known) (environment : Environment) (valuation : Valuation)
        → entangled_in tables bound entangled ≡ Ok (form, after)
        → length valuation ≡ length (written_variables entangled)
        → bound_values environment entangled valuation ≡ form_bound (known_worth environment) form valuation }
{}

/// Over tables whose rows have a value for each column, the groundings of the form are those of the statement over the
/// same tables under their names.
pub fn resolved_grounds_the_same()
    ensures { (creates : List Create) (tables : Tables) (environment : Environment) (bound after : Bound)
        → (entangled : TreeEntangled) (form : Entangled Known) (valuation : Valuation)
        → AreWide creates tables
        → entangled_in (schemas_of creates) bound entangled ≡ Ok (form, after)
        → is_grounding creates (database_of creates tables) environment entangled valuation
        ≡ is_form_grounding (known_worth environment) tables form valuation }
{}
