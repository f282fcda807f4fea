//! Laws of the texts among values. Nothing here has a body; what holds is in the contracts.
ghost use Rattle.std.specs.Prelude.{ℕ, Bool, List};
ghost use Rattle.ent_program_laws.specs.Kept.{GroundingsKeep, OpeningsKeep, RunsKeep, ReadViewsKeep};
ghost use Rattle.ent_program_laws.specs.Kept.{StatementsKeep, TablesShow};
ghost use Rattle.ent_program_laws.specs.Values.{IsOfCharacters, IsPassed};

/// An opening whose texts are of whole characters begins with tables whose texts are so, and the rows of such tables,
/// in order, have such texts. The same holds of texts that pass any other test.
pub fn tables_keep_texts()
    ensures characters { OpeningsKeep IsOfCharacters }
    ensures shown_characters { TablesShow IsOfCharacters }
    ensures tests { (passes : List ℕ → Bool) → OpeningsKeep (IsPassed passes) }
    ensures shown_tests { (passes : List ℕ → Bool) → TablesShow (IsPassed passes) }
{}

/// A statement whose texts are of whole characters, over tables and host variables with such texts, leaves and answers
/// such texts, where its valuation has such. The same holds of texts that pass any other test.
pub fn statements_keep_texts()
    ensures characters { StatementsKeep IsOfCharacters }
    ensures tests { (passes : List ℕ → Bool) → StatementsKeep (IsPassed passes) }
{}

/// A grounding of an entangled statement whose texts are of whole characters, over such tables and host variables, has
/// such texts, where the statement's script has no fault of form. The same holds of texts that pass any other test.
pub fn groundings_keep_texts()
    ensures characters { GroundingsKeep IsOfCharacters }
    ensures tests { (passes : List ℕ → Bool) → GroundingsKeep (IsPassed passes) }
{}

/// Scripts without a fault of form whose texts are of whole characters, that run one after the other over tables with
/// such texts, each entangled statement answered by a grounding, leave and answer such texts; and these groundings have
/// such texts. The same holds of texts that pass any other test.
pub fn runs_keep_texts()
    ensures characters { RunsKeep IsOfCharacters }
    ensures character_read_views { ReadViewsKeep IsOfCharacters }
    ensures tests { (passes : List ℕ → Bool) → RunsKeep (IsPassed passes) }
    ensures test_read_views { (passes : List ℕ → Bool) → ReadViewsKeep (IsPassed passes) }
{}
