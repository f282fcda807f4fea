//! Where things stand: a function without a body, whose contract says it of every text.
ghost use Rattle.std.specs.Prelude.{◌≡◌, ℕ, List, true};
ghost use Rattle.ent_text.specs.declared.token.Token.{Token};
ghost use Rattle.ent_text.specs.Read.{place_of};
ghost use Rattle.ent_text.specs.GrammarSpelling.{spells};
ghost use Rattle.ent_tree.specs.declared.operand.Literal.{Literal};
ghost use Rattle.ent_tree.specs.declared.operand.Operand.{Operand};
ghost use Rattle.ent_tree.specs.declared.operand.Expression.{Expression};
ghost use Rattle.ent_tree.specs.declared.entangled.Term.{Term};
ghost use Rattle.ent_tree.specs.declared.entangled.Condition.{Condition};
ghost use Rattle.ent_tree.specs.Places.{term_place};
ghost use Rattle.ent_sql.specs.Operands.{literal, operand, expression, term};
ghost use Rattle.ent_sql.specs.Entangling.{condition};
ghost use Rattle.ent_sql.specs.Places.{place_of_operand, place_of_expression, place_of_condition};

/// A literal, an operand, an expression, a term, a test and a tuple stand at the first of their tokens.
pub fn things_stand_at_their_first_token()
    ensures literal { (end : ℕ) (tokens : List Token) (thing : Literal)
        → spells literal true thing tokens → place_of end tokens ≡ thing.place }
    ensures operand { (end : ℕ) (tokens : List Token) (thing : Operand)
        → spells operand true thing tokens → place_of end tokens ≡ place_of_operand thing }
    ensures expression { (end : ℕ) (tokens : List Token) (thing : Expression Operand)
        → spells (expression operand) true thing tokens → place_of end tokens ≡ place_of_expression thing }
    ensures term { (end : ℕ) (tokens : List Token) (thing : Term)
        → spells term true thing tokens → place_of end tokens ≡ term_place thing }
    ensures condition { (end : ℕ) (tokens : List Token) (thing : Condition)
        → spells condition true thing tokens → place_of end tokens ≡ place_of_condition thing }
{}
