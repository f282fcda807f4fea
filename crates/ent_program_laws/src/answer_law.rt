//! Laws of answers and tables. Nothing here has a body but calls of laws; what holds is in the contracts.
ghost use Rattle.std.specs.Prelude.{◌≡◌, ◌≤◌, Contains, List, [], None, Ok, Some, length, map, true};
ghost use Rattle.std.specs.List.{AllByRecursion};
ghost use Rattle.ent_program_laws.specs.Answered.{AreGrounded, CanBeCounted, CanRun, IsEffectTold};
ghost use Rattle.ent_program_laws.specs.Held.{CanAnswer, HoldsRowsOf, HoldsValuesOf};
ghost use Rattle.ent_program_laws.specs.Laws.{Laws};
ghost use Rattle.ent_program_laws.specs.Runs.{ReadViewsAreTold, RunsAreAnswered, RunsHoldRows};
ghost use Rattle.ent_semantics.specs.declared.entangled.Entangled.{Entangled};
ghost use Rattle.ent_semantics.specs.declared.operand.Known.{Known};
ghost use Rattle.ent_semantics.specs.declared.statement.Statement.{Statement};
ghost use Rattle.ent_semantics.specs.declared.statement.Statement.TheVariants as forms;
ghost use Rattle.ent_form.specs.Catalogue.{schemas_of};
ghost use Rattle.ent_form.specs.Entangled.{entangled_in};
ghost use Rattle.ent_form.specs.Form.{script_in, statement_in};
ghost use Rattle.ent_form.specs.Kinds.{Bound};
ghost use Rattle.ent_form.specs.OpeningFault.{declarations_fault};
ghost use Rattle.ent_form.specs.declared.script.Plain.{Plain};
ghost use Rattle.ent_history.specs.Told.{shown_table};
ghost use Rattle.ent_print.specs.Reading.{CanBeRead};
ghost use Rattle.ent_print.specs.Spelling.{entangled_spelling, statement_spelling};
ghost use Rattle.ent_report_laws.specs.Tellable.{AreAnswersTo, AreRowsOf, AreTablesOf};
ghost use Rattle.ent_report_laws.specs.Tellable.{IsOpeningTold};
ghost use Rattle.ent_sql_laws.specs.Fits.{EntangledFits, StatementFits};
ghost use Rattle.ent_semantics.specs.Database.{Database, Environment, opening_database};
ghost use Rattle.ent_semantics.specs.Effect.{Effect};
ghost use Rattle.ent_semantics.specs.Entangled.{Valuation, is_grounding};
ghost use Rattle.ent_semantics.specs.Serial.{Run, Turn, script_run, script_read_views};
ghost use Rattle.ent_semantics.specs.Statement.{statement_meaning};
ghost use Rattle.ent_lists.specs.Sets as set;
ghost use Rattle.ent_tree.specs.declared.declaration.Create.{Create};
ghost use Rattle.ent_tree.specs.declared.declaration.Opening.{Opening};
ghost use Rattle.ent_tree.specs.declared.entangled.Entangled.{Entangled as TreeEntangled};
ghost use Rattle.ent_tree.specs.declared.script.Script.{Script};
ghost use Rattle.ent_tree.specs.declared.script.Statement.{Statement as TreeStatement};
ghost use Rattle.ent_tree.specs.declared.script.Statement.TheVariants as trees;
ghost use Rattle.ent_value.specs.declared.limits.TheConstants.{MOST_ROWS};

use ent_form::{
    declared_columns_are_distinct, effects_keep_kinds, first_fault_is_first,
    groundings_are_of_their_kinds, kinded_tables_are_wide, resolved_grounds_the_same,
    resolved_means_the_same, resolved_offers_and_demands_the_same, resolved_selects_the_same,
    resolved_statements_fit, variables_are_the_written_ones,
};
use ent_headline::resolved_variables_are_ranged;
use ent_semantics::closing_keeps_the_meaning;

/// What a statement means, its form does; and that keeps kinds.
pub(crate) fn forms_run_as_statements()
    ensures { Laws }
{
    closing_keeps_the_meaning();
    declared_columns_are_distinct();
    effects_keep_kinds();
    first_fault_is_first();
    groundings_are_of_their_kinds();
    kinded_tables_are_wide();
    resolved_grounds_the_same();
    resolved_means_the_same();
    resolved_offers_and_demands_the_same();
    resolved_selects_the_same();
    resolved_statements_fit();
    resolved_variables_are_ranged();
    variables_are_the_written_ones();
}

/// Over tables and host variables whose values can be told, a statement that resolves, is within the limits and can
/// stand in a text leaves such tables and such host variables, and its answer is of its sort and can be told. Of rows
/// that is said where a report can say how many they are.
pub fn statements_answer_what_can_be_told()
    ensures { (declared : List Create) (bound after : Bound) (statement : TreeStatement) (form : Statement Known)
        → (valuation : Valuation) (database : Database) (environment : Environment) (effect : Effect Database)
        → declarations_fault [] declared ≡ None
        → statement_in (schemas_of declared) bound statement ≡ Ok (form, after)
        → AllByRecursion CanBeRead (statement_spelling statement) → StatementFits statement
        → CanAnswer statement form valuation → HoldsRowsOf declared database → HoldsValuesOf bound environment
        → statement_meaning declared statement valuation database environment ≡ Ok effect
        → IsEffectTold declared after statement effect }
{
    forms_run_as_statements();
}

/// A grounding of a script's entangled statement over such tables and host variables answers it: it has a value that
/// can be told for each written variable, of its kind.
pub fn groundings_can_be_told()
    ensures { (declared : List Create) (script : Script) (plain : Plain) (bound after : Bound)
        → (entangled : TreeEntangled) (form : Entangled Known) (database : Database) (environment : Environment)
        → (valuation : Valuation)
        → script_in (schemas_of declared) script ≡ Ok plain
        → Contains plain.statements (forms.Entangled form)
        → entangled_in (schemas_of declared) bound entangled ≡ Ok (form, after)
        → AllByRecursion CanBeRead (entangled_spelling entangled) → EntangledFits entangled
        → HoldsRowsOf declared database → HoldsValuesOf bound environment
        → is_grounding declared database environment entangled valuation ≡ true
        → CanAnswer (trees.Entangled entangled) (forms.Entangled form) valuation }
{
    forms_run_as_statements();
}

/// A script that can run leaves tables whose values can be told, and answers what can be told, where its entangled
/// statements are answered by groundings.
pub fn scripts_answer_what_can_be_told()
    ensures rows { (declared : List Create) (turn : Turn) (database : Database) (run : Run)
        → declarations_fault [] declared ≡ None → CanRun declared turn.script → HoldsRowsOf declared database
        → AreGrounded declared (script_read_views declared turn database)
        → script_run declared turn.script turn.oracle database ≡ Some run
        → HoldsRowsOf declared run.database }
    ensures answers { (declared : List Create) (turn : Turn) (database : Database) (run : Run)
        → declarations_fault [] declared ≡ None → CanRun declared turn.script → HoldsRowsOf declared database
        → AreGrounded declared (script_read_views declared turn database)
        → script_run declared turn.script turn.oracle database ≡ Some run
        → AllByRecursion CanBeCounted run.answers
        → AreAnswersTo turn.script.statements run.answers }
{
    forms_run_as_statements();
}

/// So do scripts that run one after the other.
pub fn runs_answer_what_can_be_told()
    ensures rows { RunsHoldRows }
    ensures answers { RunsAreAnswered }
{
    forms_run_as_statements();
}

/// Each entangled statement of such a run, with its grounding, is a member that a history of these tables and scripts
/// can tell: a value that can be told for each written variable, of the kind that the form binds it in.
pub fn read_views_can_be_told()
    ensures { ReadViewsAreTold }
{
    forms_run_as_statements();
}

/// Tables whose values can be told are shown at the end as a report shows them.
pub fn tables_can_be_told()
    ensures limit { (declared : List Create) (database : Database) (create : Create)
        → HoldsRowsOf declared database → Contains declared create
        → length (set.ascending (database create.name.name)) ≤ MOST_ROWS }
    ensures rows { (declared : List Create) (database : Database) (create : Create)
        → HoldsRowsOf declared database → Contains declared create
        → AreRowsOf create.columns (set.ascending (database create.name.name)) }
    ensures shown { (declared : List Create) (database : Database) → HoldsRowsOf declared database
        → AreTablesOf declared (map (λ create. shown_table database create.name.name) declared) }
{}

/// Tables of an opening that can be told are declared without a fault, and hold its rows at first.
pub fn told_openings_hold_rows()
    ensures tables { (opening : Opening) → IsOpeningTold opening → declarations_fault [] opening.tables ≡ None }
    ensures rows { (opening : Opening) → IsOpeningTold opening
        → HoldsRowsOf opening.tables (opening_database opening) }
{}
