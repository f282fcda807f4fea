//! Laws of reading the parts of a line. Nothing here has a body; what holds is in the contracts.
ghost use Rattle.std.specs.Prelude.{◌≡◌, ◌≤◌, ◌<◌, ◌^◌, ◌++◌, ℕ, List, Ok};
ghost use Rattle.std.specs.Fmt.{decimal};
ghost use Rattle.std.specs.Char.{is_ascii_digit};
ghost use Rattle.ent_value.specs.Print.{row_text, value_text};
ghost use Rattle.ent_value.specs.declared.value.Value.{Value};
ghost use Rattle.ent_text.specs.Lexing.{Stops};
ghost use Rattle.ent_text.specs.Pieces.{behind, number_to, row_at, value_at};
ghost use Rattle.ent_text.specs.Written.{IsOver, IsRow, IsValue};

/// A number is read just where it is written, up to a limit, and no digit stands behind it.
#[tactic(auto, using(crate::proofs::Numbers::number_found, crate::proofs::Numbers::number_again))]
pub fn numbers_are_read_as_written()
    ensures found { (most : ℕ) (bytes rest : List ℕ) (n : ℕ) → most < 2 ^ 64 → number_to most bytes ≡ Ok (n, rest)
        → (bytes ≡ decimal n ++ rest) × (n ≤ most) × Stops is_ascii_digit rest }
    ensures only { (most n : ℕ) (rest : List ℕ) → most < 2 ^ 64 → n ≤ most → Stops is_ascii_digit rest
        → number_to most (decimal n ++ rest) ≡ Ok (n, rest) }
{}

/// A value is read just where it is written. It is read again where nothing stands behind it that would go on it.
#[tactic(auto, using(crate::proofs::Values::value_found, crate::proofs::Values::value_again))]
pub fn values_are_read_as_written()
    ensures found { (bytes rest : List ℕ) (value : Value) → value_at bytes ≡ Ok (value, rest)
        → (bytes ≡ value_text value ++ rest) × IsValue value }
    ensures only { (value : Value) (rest : List ℕ) → IsValue value → IsOver rest
        → value_at (value_text value ++ rest) ≡ Ok (value, rest) }
{}

/// A row is read just where it is written, whatever stands behind it.
#[tactic(auto, using(crate::proofs::Rows::row_found, crate::proofs::Rows::row_again))]
pub fn rows_are_read_as_written()
    ensures found { (bytes rest : List ℕ) (values : List Value) → row_at bytes ≡ Ok (values, rest)
        → (bytes ≡ row_text values ++ rest) × IsRow values }
    ensures only { (values : List Value) (rest : List ℕ) → IsRow values
        → row_at (row_text values ++ rest) ≡ Ok (values, rest) }
{}

/// Bytes are found in front just where they stand there.
#[tactic(auto, using(crate::proofs::Rows::behind_found, crate::proofs::Rows::behind_again))]
pub fn words_stand_in_front()
    ensures found { (word bytes rest : List ℕ) → behind word bytes ≡ Ok rest → bytes ≡ word ++ rest }
    ensures only { (word rest : List ℕ) → behind word (word ++ rest) ≡ Ok rest }
{}
