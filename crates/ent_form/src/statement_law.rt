//! The law of all statements.
ghost use Rattle.std.specs.Prelude.{◌≡◌, Ok, List};
ghost use Rattle.ent_tree.specs.declared.declaration.Create.{Create};
ghost use Rattle.ent_tree.specs.declared.script.Statement.{Statement as TreeStatement};
ghost use Rattle.ent_semantics.specs.declared.operand.Known.{Known};
ghost use Rattle.ent_semantics.specs.declared.statement.Statement.{Statement};
ghost use Rattle.ent_semantics.specs.Form.{Tables, known_worth, form_meaning};
ghost use Rattle.ent_semantics.specs.Database.{Environment};
ghost use Rattle.ent_semantics.specs.Entangled.{Valuation};
ghost use Rattle.ent_semantics.specs.Statement.{statement_meaning};
ghost use Rattle.ent_form.specs.Catalogue.{schemas_of};
ghost use Rattle.ent_form.specs.Form.{statement_in};
ghost use Rattle.ent_form.specs.Kinds.{Bound};
ghost use Rattle.ent_form.specs.Tables.{database_of, AreWide, HaveDistinctColumns, effect_of, Answers};

/// Over tables whose rows have a value for each column, no table having two columns of one name, a resolved statement
/// has the effect that the statement has over the same tables under their names. An entangled one is answered under a
/// value for each of its written variables.
pub fn resolved_means_the_same()
    ensures { (creates : List Create) (tables : Tables) (environment : Environment) (valuation : Valuation)
        → (bound after : Bound) (statement : TreeStatement) (form : Statement Known)
        → AreWide creates tables
        → HaveDistinctColumns creates
        → statement_in (schemas_of creates) bound statement ≡ Ok (form, after)
        → Answers statement valuation
        → statement_meaning creates statement valuation (database_of creates tables) environment
        ≡ effect_of creates (form_meaning known_worth form valuation tables environment) }
{}
