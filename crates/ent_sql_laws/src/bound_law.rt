//! Laws of bound scripts. Nothing here does any work; what holds is in the contracts.
ghost use Rattle.std.specs.Prelude.{◌≡◌, ℕ, Contains, List, [], Ok, Some, None, false, map};
ghost use Rattle.std.specs.List.{All};
ghost use Rattle.std.specs.Option.{option_map};
ghost use Rattle.ent_value.specs.declared.value.Value.{Value};
ghost use Rattle.ent_tree.specs.declared.declaration.Create.{Create};
ghost use Rattle.ent_tree.specs.declared.entangled.Entangled.{Entangled};
ghost use Rattle.ent_tree.specs.declared.script.Input.{Input};
ghost use Rattle.ent_tree.specs.declared.script.Script.{Script};
ghost use Rattle.ent_sql.specs.Reading.{reading};
ghost use Rattle.ent_print.specs.Printing.{script_text};
ghost use Rattle.ent_print.specs.Reading.{IsReadable};
ghost use Rattle.ent_sql_laws.specs.Fits.{ScriptFits};
ghost use Rattle.ent_sql_laws.specs.Itself.{IsAlone};
ghost use Rattle.ent_semantics.specs.Database.{Database, Environment, Name, nothing_bound};
ghost use Rattle.ent_semantics.specs.Entangled.{Valuation, is_grounding, posts};
ghost use Rattle.ent_semantics.specs.Serial.{script_run};
ghost use Rattle.ent_bound.specs.Bindable.{IsBindable};
ghost use Rattle.ent_bound.specs.Bound.{bound_script, bound_value, value_bound};
ghost use Rattle.ent_sql_laws.specs.Meaning.{run_with_bound, script_run_from, with_bound};
ghost use Rattle.ent_bound.specs.Over.{entangled_over};
ghost use Rattle.ent_bound.specs.Refused.{first_fault};
ghost use Rattle.ent_bound.specs.Values.{is_set, is_used, script_values};
ghost use Rattle.ent_bound.specs.declared.variable.BoundVariable.{BoundVariable};

use crate::{printed_text_is_itself, read_scripts_can_be_printed};

/// A script in which nothing is bound is that script.
pub fn nothing_bound_changes_nothing()
    ensures { (script : Script) → bound_script [] script ≡ script }
{}

/// The values of a bound script are those of the script, in order, each host variable that is bound giving way to its
/// literal. So a bound script uses none of the bound variables, and each other one where the script does; and it sets
/// what the script sets. Where each host variable of a script is bound or set, the bound script only uses what it sets.
pub fn bound_variables_are_used_no_more()
    ensures values { (variables : List BoundVariable) (script : Script)
        → script_values (bound_script variables script) ≡ map (bound_value variables) (script_values script) }
    ensures bound { (variables : List BoundVariable) (script : Script) (name : Name) (value : Value)
        → value_bound variables name ≡ Some value → is_used (bound_script variables script) name ≡ false }
    ensures others { (variables : List BoundVariable) (script : Script) (name : Name)
        → value_bound variables name ≡ None → is_used (bound_script variables script) name ≡ is_used script name }
    ensures set { (variables : List BoundVariable) (script : Script) (name : Name)
        → is_set (bound_script variables script) name ≡ is_set script name }
{}

/// A bound script means what the script means where its variables have these values from the start. Alone, from any
/// database and with any answers of the oracle, both fail, or both leave the same tables, the same answers and, but for
/// the bound values, the same environment. Its entangled statements have the same groundings and demand the same.
pub fn bound_scripts_mean_the_same()
    ensures runs { (variables : List BoundVariable) (declared : List Create) (script : Script)
        → first_fault variables script ≡ None → (oracle : List Valuation) (database : Database)
        → script_run_from declared script oracle database (with_bound variables nothing_bound)
        ≡ option_map (run_with_bound variables)
        (script_run declared (bound_script variables script) oracle database) }
    ensures grounds { (variables : List BoundVariable) (environment : Environment) (declared : List Create)
        → (database : Database) (asked : Entangled) (valuation : Valuation)
        → is_grounding declared database environment (entangled_over (bound_value variables) asked) valuation
        ≡ is_grounding declared database (with_bound variables environment) asked valuation }
    ensures posts { (variables : List BoundVariable) (environment : Environment) (asked : Entangled)
        → (valuation : Valuation)
        → posts environment (entangled_over (bound_value variables) asked) valuation
        ≡ posts (with_bound variables environment) asked valuation }
{}

/// A text can spell each bound script: where values that can be bound stand in a script that keeps the limits and can
/// be printed, the bound script does so too. So the text of a bound script, whatever text the script was read from, is
/// read again as that bound script alone, places aside.
pub fn bound_scripts_can_be_spelled()
    ensures fits { (variables : List BoundVariable) (script : Script)
        → ScriptFits script → ScriptFits (bound_script variables script) }
    ensures readable { (variables : List BoundVariable) (script : Script)
        → All (λ variable. IsBindable variable.value) variables → IsReadable script
        → IsReadable (bound_script variables script) }
    ensures again { (variables : List BoundVariable) (text : List ℕ) (input : Input) (script : Script)
        → All (λ variable. IsBindable variable.value) variables → reading text ≡ Ok input
        → Contains input.scripts script
        → (again : Input) × (reading (script_text (bound_script variables script)) ≡ Ok again)
        × IsAlone (bound_script variables script) again }
{
    read_scripts_can_be_printed();
    printed_text_is_itself();
}
