//! Laws of closed statements. Nothing here has a body; what holds is in the contracts.
ghost use Rattle.std.specs.Prelude.{◌≡◌};
ghost use Rattle.ent_semantics.specs.Database.{Environment};
ghost use Rattle.ent_semantics.specs.Entangled.{Valuation};
ghost use Rattle.ent_semantics.specs.Closing.{closed, closed_entangled};
ghost use Rattle.ent_semantics.specs.Form.{Tables, closed_worth, known_worth};
ghost use Rattle.ent_semantics.specs.Form.{form_heads, form_meaning, form_posts, is_form_grounding};
ghost use Rattle.ent_semantics.specs.declared.entangled.Entangled.{Entangled};
ghost use Rattle.ent_semantics.specs.declared.operand.Known.{Known};
ghost use Rattle.ent_semantics.specs.declared.statement.Statement.{Statement};

/// A resolved statement means what it means closed; an entangled one has the same groundings, heads and posts.
pub fn closing_keeps_the_meaning()
    ensures meaning { (statement : Statement Known) (valuation : Valuation) (tables : Tables)
        → (environment : Environment)
        → form_meaning closed_worth (closed environment statement) valuation tables environment
        ≡ form_meaning known_worth statement valuation tables environment }
    ensures grounds { (environment : Environment) (tables : Tables) (entangled : Entangled Known)
        → (valuation : Valuation)
        → is_form_grounding (λ value. value) tables (closed_entangled environment entangled) valuation
        ≡ is_form_grounding (known_worth environment) tables entangled valuation }
    ensures heads { (environment : Environment) (entangled : Entangled Known) (valuation : Valuation)
        → form_heads (λ value. value) (closed_entangled environment entangled) valuation
        ≡ form_heads (known_worth environment) entangled valuation }
    ensures posts { (environment : Environment) (entangled : Entangled Known) (valuation : Valuation)
        → form_posts (λ value. value) (closed_entangled environment entangled) valuation
        ≡ form_posts (known_worth environment) entangled valuation }
{}
