//! Laws of grammars: functions without a body, whose contracts say what holds of every grammar that one token decides.
ghost use Rattle.std.specs.Prelude.{◌≡◌, ◌↔◌, ℕ, List, [], true, Ok, Err};
ghost use Rattle.ent_text.specs.declared.token.Token.{Token};
ghost use Rattle.ent_text.specs.declared.grammar_fault.GrammarFault.TheVariants.{Unexpected, TooMany};
ghost use Rattle.ent_text.specs.Grammar.{reads_all};
ghost use Rattle.ent_text.specs.GrammarSpelling.{spells};
ghost use Rattle.ent_text.specs.Foresight.{IsPredictive};
ghost use Rattle.ent_text.specs.FirstFault.{CantFollow, IsTooMuch};

use crate::language::Language;

/// A value is read from tokens exactly where they are a sentence of it that keeps the limits, and they are one of one
/// value at most. Each fault is answered exactly where it is the first.
pub fn reading_is_exact<T: Language>()
    ensures value { IsPredictive T.grammar [] → (end : ℕ) (tokens : List Token) (y : T)
        → (reads_all T.grammar end tokens ≡ Ok y) ↔ spells T.grammar true y tokens }
    ensures single { IsPredictive T.grammar [] → (tokens : List Token) (this that : T)
        → spells T.grammar true this tokens → spells T.grammar true that tokens → this ≡ that }
    ensures unexpected { IsPredictive T.grammar [] → (end : ℕ) (tokens : List Token) (place : ℕ)
        → (reads_all T.grammar end tokens ≡ Err (Unexpected place)) ↔ CantFollow T.grammar end tokens place }
    ensures too_many { IsPredictive T.grammar [] → (end : ℕ) (tokens : List Token) (place : ℕ)
        → (reads_all T.grammar end tokens ≡ Err (TooMany place)) ↔ IsTooMuch T.grammar tokens place }
{}
