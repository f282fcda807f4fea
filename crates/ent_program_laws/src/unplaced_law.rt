//! The laws of places. Nothing here has a body; what holds is in the contracts.
ghost use Rattle.std.specs.Prelude.{◌≡◌, [], List, None, map};
ghost use Rattle.std.specs.Option.{option_map};
ghost use Rattle.ent_tree.specs.Places.{unplaced_entangled, unplaced_script, unplaced_statement};
ghost use Rattle.ent_tree.specs.declared.declaration.Create.{Create};
ghost use Rattle.ent_tree.specs.declared.declaration.Opening.{Opening};
ghost use Rattle.ent_tree.specs.declared.entangled.Entangled.{Entangled};
ghost use Rattle.ent_tree.specs.declared.script.Script.{Script};
ghost use Rattle.ent_tree.specs.declared.script.Statement.{Statement};
ghost use Rattle.ent_book.specs.Report2.{report_2_text};
ghost use Rattle.ent_form.specs.Catalogue.{schemas_of};
ghost use Rattle.ent_form.specs.OpeningFault.{opening_fault};
ghost use Rattle.ent_form.specs.ScriptFaults.{script_faults};
ghost use Rattle.ent_semantics.specs.Book.{IsLegal};
ghost use Rattle.ent_semantics.specs.Database.{Name, Database, Environment, opening_database};
ghost use Rattle.ent_semantics.specs.Entangled.{Valuation, heads, is_grounding, posts, written_variables};
ghost use Rattle.ent_semantics.specs.Joint.{IsGood};
ghost use Rattle.ent_semantics.specs.Serial.{ReadView, Turn, operations_of};
ghost use Rattle.ent_semantics.specs.Serial.{script_run, scripts_run, scripts_read_views};
ghost use Rattle.ent_semantics.specs.Statement.{statement_meaning};
ghost use Rattle.ent_semantics.specs.Uses.{changes, uses};
ghost use Rattle.ent_semantics.specs.declared.book.Book.{Book};
ghost use Rattle.ent_semantics.specs.declared.book.Member.{Member};
ghost use Rattle.ent_program_laws.specs.Faults.{unplaced_fault};
ghost use Rattle.ent_program_laws.specs.Unplaced.{unplaced_book, unplaced_create, unplaced_operation};
ghost use Rattle.ent_program_laws.specs.Unplaced.{unplaced_opening};
ghost use Rattle.ent_program_laws.specs.Unplaced.{unplaced_read_view, unplaced_turn};

use ent_print::places_do_not_show;

/// A statement without its places, over declarations without theirs, means the same, uses and changes the same tables,
/// and, where it is entangled, has the same written variables, groundings, heads and postconditions.
pub fn statements_mean_the_same_without_places()
    ensures meaning { (declared : List Create) (statement : Statement) (valuation : Valuation)
        → (database : Database) (environment : Environment)
        → statement_meaning (map unplaced_create declared) (unplaced_statement statement) valuation database environment
        ≡ statement_meaning declared statement valuation database environment }
    ensures variables { (entangled : Entangled)
        → written_variables (unplaced_entangled entangled) ≡ written_variables entangled }
    ensures grounds { (declared : List Create) (database : Database) (environment : Environment)
        → (entangled : Entangled) (valuation : Valuation)
        → is_grounding (map unplaced_create declared) database environment (unplaced_entangled entangled) valuation
        ≡ is_grounding declared database environment entangled valuation }
    ensures heads { (environment : Environment) (entangled : Entangled) (valuation : Valuation)
        → heads environment (unplaced_entangled entangled) valuation ≡ heads environment entangled valuation }
    ensures posts { (environment : Environment) (entangled : Entangled) (valuation : Valuation)
        → posts environment (unplaced_entangled entangled) valuation ≡ posts environment entangled valuation }
    ensures uses { (statement : Statement) (name : Name)
        → uses (unplaced_statement statement) name ≡ uses statement name }
    ensures changes { (statement : Statement) (name : Name)
        → changes (unplaced_statement statement) name ≡ changes statement name }
{}

/// The database of an opening is that of the opening without its places, table by table and as a whole.
pub fn openings_are_the_same_without_places()
    ensures table { (opening : Opening) (name : Name)
        → opening_database (unplaced_opening opening) name ≡ opening_database opening name }
    ensures whole { (opening : Opening) → opening_database (unplaced_opening opening) ≡ opening_database opening }
{}

/// Scripts without their places, run alone over declarations without theirs, leave and answer the same, one of them and
/// all in a row. Their operations, and their entangled statements with what these see, are the same, places aside. A
/// joint answer that is good over such a run stays good.
pub fn runs_are_the_same_without_places()
    ensures operations { (statements : List Statement) (oracle : List Valuation)
        → operations_of (map unplaced_statement statements) oracle
        ≡ option_map (map unplaced_operation) (operations_of statements oracle) }
    ensures script { (declared : List Create) (script : Script) (oracle : List Valuation) (database : Database)
        → script_run (map unplaced_create declared) (unplaced_script script) oracle database
        ≡ script_run declared script oracle database }
    ensures run { (declared : List Create) (turns : List Turn) (database : Database)
        → scripts_run (map unplaced_create declared) (map unplaced_turn turns) database
        ≡ scripts_run declared turns database }
    ensures read_views { (declared : List Create) (turns : List Turn) (database : Database)
        → scripts_read_views (map unplaced_create declared) (map unplaced_turn turns) database
        ≡ map unplaced_read_view (scripts_read_views declared turns database) }
    ensures good { (declared : List Create) (run : List ReadView) (members : List Member)
        → IsGood declared run members
        → IsGood (map unplaced_create declared) (map unplaced_read_view run) members }
{}

/// A legal book is legal without its places.
pub fn legal_books_are_legal_without_places()
    ensures { (book : Book Database) → IsLegal book → IsLegal (unplaced_book book) }
{}

/// The faults of form that stand in a script and in an opening without their places are the same, places aside; where
/// none stands, none does without places.
pub fn faults_are_the_same_without_places()
    ensures script { (creates : List Create) (script : Script)
        → script_faults (schemas_of (map unplaced_create creates)) (unplaced_script script)
        ≡ map unplaced_fault (script_faults (schemas_of creates) script) }
    ensures opening { (opening : Opening)
        → opening_fault (unplaced_opening opening) ≡ option_map unplaced_fault (opening_fault opening) }
    ensures faultless_script { (creates : List Create) (script : Script)
        → script_faults (schemas_of creates) script ≡ []
        → script_faults (schemas_of (map unplaced_create creates)) (unplaced_script script) ≡ [] }
    ensures faultless_opening { (opening : Opening) → opening_fault opening ≡ None
        → opening_fault (unplaced_opening opening) ≡ None }
{}

/// The report of a book, of version 2, is that of the book without its places.
pub fn reports_are_the_same_without_places()
    ensures { (book : Book Database) → report_2_text (unplaced_book book) ≡ report_2_text book }
{
    places_do_not_show();
}
