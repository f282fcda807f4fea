//! Laws of resolved statements.
ghost use Rattle.std.specs.Prelude.{◌≡◌, false, List, map, Ok};
ghost use Rattle.ent_tree.specs.declared.script.Statement.{Statement as TreeStatement};
ghost use Rattle.ent_semantics.specs.Closing.{closed};
ghost use Rattle.ent_semantics.specs.Form.{Tables, form_meaning, known_worth};
ghost use Rattle.ent_semantics.specs.declared.operand.Known.{Known};
ghost use Rattle.ent_semantics.specs.declared.statement.Statement.{Statement};
ghost use Rattle.ent_semantics.specs.Database.{Environment};
ghost use Rattle.ent_semantics.specs.Effect.{Effect};
ghost use Rattle.ent_semantics.specs.Entangled.{Valuation};
ghost use Rattle.ent_semantics.specs.Serial.{is_entangled};
ghost use Rattle.ent_form.specs.declared.catalogue.TableSchema.{TableSchema};
ghost use Rattle.ent_form.specs.Form.{statement_in};
ghost use Rattle.ent_form.specs.Kinds.{Bound};
ghost use Rattle.ent_semantics.specs.FormKinds.{Fits, tables_named};
ghost use Rattle.ent_form.specs.TableKinds.{kinds_numbered, AreDeclared, AreKinded, AnswersInKind, HasKinds};

/// A resolved statement names tables that are declared, the same ones when it is closed; and an ordinary one fits the
/// kinds of its tables when it is closed over values of the kinds that are known.
pub fn resolved_statements_fit()
    ensures declared { (schemas : List TableSchema) (bound after : Bound) (statement : TreeStatement)
        → (form : Statement Known)
        → statement_in schemas bound statement ≡ Ok (form, after)
        → AreDeclared schemas (tables_named form) }
    ensures closed { (form : Statement Known) (environment : Environment)
        → tables_named (closed environment form) ≡ tables_named form }
    ensures fits { (schemas : List TableSchema) (bound after : Bound) (statement : TreeStatement)
        → (form : Statement Known) (environment : Environment)
        → statement_in schemas bound statement ≡ Ok (form, after)
        → is_entangled statement ≡ false
        → HasKinds bound environment
        → Fits (map (kinds_numbered schemas) (tables_named (closed environment form))) (closed environment form) }
{}

/// Over tables and values of their kinds a resolved statement leaves tables and values of their kinds. An entangled one
/// is answered by values of its variables' kinds.
pub fn effects_keep_kinds()
    ensures tables { (schemas : List TableSchema) (bound after : Bound) (statement : TreeStatement)
        → (form : Statement Known) (valuation : Valuation) (tables : Tables) (environment : Environment)
        → (effect : Effect Tables)
        → statement_in schemas bound statement ≡ Ok (form, after)
        → AreKinded schemas tables
        → HasKinds bound environment
        → form_meaning known_worth form valuation tables environment ≡ Ok effect
        → AreKinded schemas effect.database }
    ensures bound { (schemas : List TableSchema) (bound after : Bound) (statement : TreeStatement)
        → (form : Statement Known) (valuation : Valuation) (tables : Tables) (environment : Environment)
        → (effect : Effect Tables)
        → statement_in schemas bound statement ≡ Ok (form, after)
        → HasKinds bound environment
        → AnswersInKind form valuation
        → form_meaning known_worth form valuation tables environment ≡ Ok effect
        → HasKinds after effect.environment }
{}
