//! Laws of entangled statements. None has a body; what holds is in the contracts.
ghost use Rattle.std.specs.Prelude.{◌≡◌, ℕ, Contains, List, Ok};
ghost use Rattle.ent_tree.specs.declared.script.Script.{Script};
ghost use Rattle.ent_semantics.specs.Database.{Environment};
ghost use Rattle.ent_semantics.specs.Closing.{closed_entangled};
ghost use Rattle.ent_semantics.specs.declared.entangled.Entangled.{Entangled};
ghost use Rattle.ent_semantics.specs.declared.operand.Known.{Known};
ghost use Rattle.ent_semantics.specs.declared.statement.Statement.TheVariants as statements;
ghost use Rattle.ent_form.specs.Form.{script_in};
ghost use Rattle.ent_form.specs.declared.catalogue.TableSchema.{TableSchema};
ghost use Rattle.ent_form.specs.declared.script.Plain.{Plain};
ghost use Rattle.ent_plan.specs.Ranged.{IsRanged};
ghost use Rattle.ent_plan.specs.Plan.{HasDistinctHeads};

/// The heads of each entangled statement of a script that is resolved are of distinct relations, whatever its host
/// variables are worth.
pub fn resolved_heads_are_distinct()
    ensures { (tables : List TableSchema) (script : Script) (plain : Plain) (entangled : Entangled Known)
        → script_in tables script ≡ Ok plain
        → Contains plain.statements (statements.Entangled entangled)
        → (tx attempt place : ℕ) (environment : Environment)
        → HasDistinctHeads record {
          tx = tx;
          attempt = attempt;
          place = place;
          statement = closed_entangled environment entangled;
        } }
{}

/// Each written variable of an entangled statement of a script that is resolved stands in a tuple of some sub-select,
/// whatever its host variables are worth.
pub fn resolved_variables_are_ranged()
    ensures { (tables : List TableSchema) (script : Script) (plain : Plain) (entangled : Entangled Known)
        → script_in tables script ≡ Ok plain
        → Contains plain.statements (statements.Entangled entangled)
        → (environment : Environment)
        → IsRanged (closed_entangled environment entangled) }
{}
