//! Laws of reading lines. Nothing here has a meaning of its own; what holds is in the contracts.
ghost use Rattle.std.specs.Prelude.{◌≡◌, ◌≢◌, ◌++◌, ℕ, [], List, Ok};
ghost use Rattle.std.specs.List.{AllByRecursion};
ghost use Rattle.ent_value.specs.Name.{is_word_byte};
ghost use Rattle.ent_tree.specs.declared.declaration.Create.{Create};
ghost use Rattle.ent_semantics.specs.Database.{Name};
ghost use Rattle.ent_semantics.specs.declared.answer.Fact.{Fact};
ghost use Rattle.ent_history.specs.Answers.{IsFact};
ghost use Rattle.ent_history.specs.Joints.{PlacesRise};
ghost use Rattle.ent_history.specs.Opening.{IsDeclaration};
ghost use Rattle.ent_history.specs.Parts.{IsName, IsNumber};
ghost use Rattle.ent_text.specs.Lexing.{Stops};
ghost use Rattle.ent_history.specs.Names.{name_at};
ghost use Rattle.ent_history.specs.Openings.{opening_at, opening_text};
ghost use Rattle.ent_history.specs.ScriptLines.{script_at, script_text};
ghost use Rattle.ent_history.specs.Heads.{heads_at, heads_line};
ghost use Rattle.ent_history.specs.JointLines.{joint_at, joint_text};

use crate::line_laws::counts_are_read_as_written;

/// A name is read just where it is written. It is read again where no letter, digit or `_` stands behind it.
pub fn names_are_read_as_written()
    ensures found { (bytes rest : List ℕ) (name : Name) → name_at bytes ≡ Ok (name, rest)
        → (bytes ≡ name ++ rest) × IsName name }
    ensures only { (name : Name) (rest : List ℕ) → IsName name → Stops is_word_byte rest
        → name_at (name ++ rest) ≡ Ok (name, rest) }
{}

/// The line of a table of the opening is read just where it is written.
pub fn openings_are_read_as_written()
    ensures found { (line : List ℕ) (create : Create) (count : ℕ) → opening_at line ≡ Ok (create, count)
        → (line ≡ opening_text create count) × IsDeclaration create × IsNumber count }
    ensures only { (create : Create) (count : ℕ) → IsDeclaration create → IsNumber count
        → opening_at (opening_text create count) ≡ Ok (create, count) }
{}

/// The line above a script is read just where it is written.
pub fn scripts_are_read_as_written()
    ensures found { (line : List ℕ) (number lines : ℕ) → script_at line ≡ Ok (number, lines)
        → (line ≡ script_text number lines) × IsNumber number × IsNumber lines }
    ensures only { (number lines : ℕ) → IsNumber number → IsNumber lines
        → script_at (script_text number lines) ≡ Ok (number, lines) }
{
    counts_are_read_as_written();
}

/// The line of an answer of heads is read just where it is written.
pub fn heads_are_read_as_written()
    ensures found { (line : List ℕ) (place : ℕ) (facts : List Fact) → heads_at line ≡ Ok (place, facts)
        → (line ≡ heads_line place facts) × IsNumber place × (facts ≢ []) × AllByRecursion IsFact facts }
    ensures only { (place : ℕ) (facts : List Fact) → IsNumber place → facts ≢ [] → AllByRecursion IsFact facts
        → heads_at (heads_line place facts) ≡ Ok (place, facts) }
{}

/// The line of a joint answer is read just where it is written.
pub fn joints_are_read_as_written()
    ensures found { (line : List ℕ) (number : ℕ) (places : List (ℕ × ℕ)) → joint_at line ≡ Ok (number, places)
        → (line ≡ joint_text number places) × IsNumber number × (places ≢ []) × PlacesRise places }
    ensures only { (number : ℕ) (places : List (ℕ × ℕ)) → IsNumber number → places ≢ [] → PlacesRise places
        → joint_at (joint_text number places) ≡ Ok (number, places) }
{}
