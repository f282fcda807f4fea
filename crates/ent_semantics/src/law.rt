//! Laws of what statements mean. Nothing here has a body; what holds is in the contracts.
ghost use Rattle.std.specs.Prelude.{◌≡◌, ◌∷◌, ◌++◌, [], Bool, List, map};
ghost use Rattle.std.specs.Option.{option_and_then};
ghost use Rattle.ent_value.specs.declared.value.Kind.{Kind};
ghost use Rattle.ent_value.specs.declared.value.Value.{Value};
ghost use Rattle.ent_tree.specs.declared.declaration.Create.{Create};
ghost use Rattle.ent_tree.specs.declared.entangled.Entangled.{Entangled};
ghost use Rattle.ent_tree.specs.declared.script.Statement.{Statement};
ghost use Rattle.ent_tree.specs.declared.script.Statement.TheVariants as statements;
ghost use Rattle.ent_semantics.specs.Database.{Name, Database, Environment};
ghost use Rattle.ent_semantics.specs.Entangled.{Valuation, is_grounding};
ghost use Rattle.ent_semantics.specs.Further.{one_more};
ghost use Rattle.ent_semantics.specs.Kinds.{KindedSource, RowsHaveKinds, SourcesHaveKinds, kinds_side_by_side};
ghost use Rattle.ent_semantics.specs.Kinds.{ShowsKinds};
ghost use Rattle.ent_semantics.specs.Selection.{selection};
ghost use Rattle.ent_semantics.specs.Serial.{Operation, run};
ghost use Rattle.ent_semantics.specs.Statement.{statement_meaning};
ghost use Rattle.ent_semantics.specs.Uses.{Agree, Covers, CoversAll, EffectsAlike, KeepsOthers, RunsAlike};

/// A statement reads its used tables alone, and so does a grounding of an entangled one; it changes its exclusive
/// tables alone. Two databases that are alike in each table are the same.
pub fn statements_keep_to_their_uses()
    ensures reads { (some : Name → Bool) (declared : List Create) (statement : Statement) (valuation : Valuation)
        → (environment : Environment) (first second : Database)
        → Covers some statement
        → Agree some first second
        → EffectsAlike (Agree some) (statement_meaning declared statement valuation first environment)
        (statement_meaning declared statement valuation second environment) }
    ensures grounds { (some : Name → Bool) (declared : List Create) (environment : Environment)
        → (entangled : Entangled) (valuation : Valuation) (first second : Database)
        → Covers some (statements.Entangled entangled)
        → Agree some first second
        → is_grounding declared first environment entangled valuation
        ≡ is_grounding declared second environment entangled valuation }
    ensures changes { (declared : List Create) (statement : Statement) (valuation : Valuation)
        → (environment : Environment) (database : Database)
        → KeepsOthers statement database (statement_meaning declared statement valuation database environment) }
    ensures runs { (some : Name → Bool) (declared : List Create) (operations : List Operation)
        → (environment : Environment)
        → (first second : Database)
        → CoversAll some operations
        → Agree some first second
        → RunsAlike (Agree some)
        (run declared operations first environment)
        (run declared operations second environment) }
    ensures extensional { (first second : Database)
        → ((name : Name) → first name ≡ second name)
        → first ≡ second }
{}

/// From where a run of some statements stands, one statement more goes on.
#[tactic(auto, using(crate::proofs::Pushed::run_pushed))]
pub fn runs_go_on()
    ensures { (declared : List Create) (operations : List Operation) (operation : Operation) (database : Database)
        → (environment : Environment)
        → run declared (operations ++ operation ∷ []) database environment
        ≡ option_and_then (one_more declared operation) (run declared operations database environment) }
{}

/// Where the rows of each source have its kinds, and what is shown of such rows has the items' kinds, the rows of the
/// result have the items' kinds.
#[tactic(auto, using(crate::proofs::ItemKinds::item_kinds))]
pub fn results_are_of_item_kinds()
    ensures { (matches : List Value → Bool) (shown : List Value → List Value)
        → (sources : List KindedSource) (items : List Kind)
        → SourcesHaveKinds sources
        → ShowsKinds shown (kinds_side_by_side sources) items
        → RowsHaveKinds items (selection matches shown (map (λ source. source.rows) sources)) }
{}
