//! Laws of openings that differ in their order alone. Nothing here has a body; what holds is in the contracts.
ghost use Rattle.std.specs.Prelude.{◌≡◌, ◌↔◌, List, None};
ghost use Rattle.ent_form.specs.Catalogue.{schemas_of};
ghost use Rattle.ent_form.specs.OpeningFault.{opening_fault};
ghost use Rattle.ent_form.specs.ScriptFaults.{script_faults};
ghost use Rattle.ent_history.specs.Told.{told_opening};
ghost use Rattle.ent_report_laws.specs.Alike.{AreAlike, AreDeclaredAlike};
ghost use Rattle.ent_semantics.specs.Book.{IsLegal};
ghost use Rattle.ent_semantics.specs.Database.{Database, Environment, Name, columns_of, opening_database};
ghost use Rattle.ent_semantics.specs.Entangled.{Valuation, is_grounding};
ghost use Rattle.ent_semantics.specs.Serial.{Turn, scripts_run, scripts_read_views};
ghost use Rattle.ent_semantics.specs.Statement.{statement_meaning};
ghost use Rattle.ent_semantics.specs.declared.book.Book.{Book};
ghost use Rattle.ent_tree.specs.declared.declaration.Create.{Create};
ghost use Rattle.ent_tree.specs.declared.declaration.Opening.{Opening};
ghost use Rattle.ent_tree.specs.declared.entangled.Entangled.{Entangled};
ghost use Rattle.ent_tree.specs.declared.script.Script.{Script};
ghost use Rattle.ent_tree.specs.declared.script.Statement.{Statement};

use crate::resolved_scripts_keep_to_declared_tables;

/// The opening that a report shows has the same table under each name as the one that it is of; and where that one has
/// no fault of form, the same rows.
pub fn told_openings_are_alike()
    ensures tables { (opening : Opening) → AreDeclaredAlike (told_opening opening).tables opening.tables }
    ensures rows { (opening : Opening) → opening_fault opening ≡ None → (name : Name)
        → opening_database (told_opening opening) name ≡ opening_database opening name }
    ensures alike { (opening : Opening) → opening_fault opening ≡ None → AreAlike (told_opening opening) opening }
{
    resolved_scripts_keep_to_declared_tables();
}

/// Over tables that are declared alike, statements mean the same, entangled ones have the same groundings, and scripts
/// that run one after the other leave, answer and see the same.
pub fn statements_mean_the_same()
    ensures columns { (first second : List Create) → AreDeclaredAlike first second
        → (name : Name) → columns_of first name ≡ columns_of second name }
    ensures meaning { (first second : List Create) → AreDeclaredAlike first second
        → (statement : Statement) (valuation : Valuation) (database : Database) (environment : Environment)
        → statement_meaning first statement valuation database environment
        ≡ statement_meaning second statement valuation database environment }
    ensures groundings { (first second : List Create) → AreDeclaredAlike first second
        → (database : Database) (environment : Environment) (entangled : Entangled) (valuation : Valuation)
        → is_grounding first database environment entangled valuation
        ≡ is_grounding second database environment entangled valuation }
    ensures runs { (first second : List Create) → AreDeclaredAlike first second
        → (turns : List Turn) (database : Database)
        → scripts_run first turns database ≡ scripts_run second turns database }
    ensures read_views { (first second : List Create) → AreDeclaredAlike first second
        → (turns : List Turn) (database : Database)
        → scripts_read_views first turns database ≡ scripts_read_views second turns database }
{}

/// Over tables that are declared alike, a script has the same faults of form.
pub fn scripts_have_the_same_faults()
    ensures { (first second : List Create) → AreDeclaredAlike first second → (script : Script)
        → script_faults (schemas_of first) script ≡ script_faults (schemas_of second) script }
{}

/// The opening that a report shows has no fault of form where the one that it is of has none.
pub fn told_openings_are_faultless()
    ensures { (opening : Opening) → opening_fault opening ≡ None → opening_fault (told_opening opening) ≡ None }
{}

/// A legal book stays legal with another opening that has the same tables and rows.
pub fn openings_alike_keep_books_legal()
    ensures { (book : Book Database) (opening : Opening) → AreAlike book.opening opening
        → IsLegal book → IsLegal (record book { opening = opening }) }
{}

/// A book over an opening without a fault is legal exactly where it is with that opening as a report shows it.
pub fn books_over_told_openings_are_legal()
    ensures { (book : Book Database) → opening_fault book.opening ≡ None
        → IsLegal book ↔ IsLegal (record book { opening = told_opening book.opening }) }
{
    told_openings_are_alike();
}
