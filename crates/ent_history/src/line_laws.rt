//! Laws of reading lines. Nothing here has a meaning of its own; what holds is in the contracts.
ghost use Rattle.std.specs.Prelude.{◌≡◌, ◌++◌, ℕ, List, Ok, length};
ghost use Rattle.ent_semantics.specs.declared.book.Fate.{Fate};
ghost use Rattle.std.specs.Char.{is_ascii_digit};
ghost use Rattle.std.specs.Fmt.{decimal};
ghost use Rattle.std.specs.List.{AllByRecursion};
ghost use Rattle.ent_value.specs.declared.value.Value.{Value};
ghost use Rattle.ent_semantics.specs.Database.{Name};
ghost use Rattle.ent_history.specs.Answers.{IsFate};
ghost use Rattle.ent_history.specs.Parts.{IsNumber};
ghost use Rattle.ent_text.specs.Lexing.{Stops};
ghost use Rattle.ent_text.specs.Written.{IsValue};
ghost use Rattle.ent_history.specs.Counts.{table_at, placed_at, set_at, table_line, placed_line, set_line};
ghost use Rattle.ent_history.specs.Bindings.{member_at, member_line};
ghost use Rattle.ent_history.specs.Fates.{transaction_at, transaction_text};

use ent_text::{numbers_are_read_as_written, values_are_read_as_written, words_stand_in_front};

/// The line of a transaction is read just where it is written.
pub fn transactions_are_read_as_written()
    ensures found { (line : List ℕ) (tx : ℕ) (fate : Fate) → transaction_at line ≡ Ok (tx, fate)
        → (line ≡ transaction_text tx fate) × IsNumber tx × IsFate fate }
    ensures only { (tx : ℕ) (fate : Fate) → IsNumber tx → IsFate fate
        → transaction_at (transaction_text tx fate) ≡ Ok (tx, fate) }
{
    numbers_are_read_as_written();
    words_stand_in_front();
}

/// The line of a member is read just where it is written: its place, and a value for each of these variables.
pub fn members_are_read_as_written()
    ensures found { (names : List Name) (line : List ℕ) (tx place : ℕ) (values : List Value)
        → member_at names line ≡ Ok (tx, place, values)
        → (line ≡ member_line tx place names values) × IsNumber tx × IsNumber place
        × AllByRecursion IsValue values × (length names ≡ length values) }
    ensures only { (tx place : ℕ) (names : List Name) (values : List Value) → IsNumber tx → IsNumber place
        → AllByRecursion IsValue values → length names ≡ length values
        → member_at names (member_line tx place names values) ≡ Ok (tx, place, values) }
{
    numbers_are_read_as_written();
    values_are_read_as_written();
    words_stand_in_front();
}

/// Lines that say how many, and the answer of a SET, are read just where they are written. No digit stands first in the
/// word behind a place.
pub fn counts_are_read_as_written()
    ensures table_found { (name : Name) (line : List ℕ) (count : ℕ) → table_at name line ≡ Ok count
        → (line ≡ table_line name count) × IsNumber count }
    ensures table_again { (name : Name) (count : ℕ) → IsNumber count
        → table_at name (table_line name count) ≡ Ok count }
    ensures placed_found { (word line : List ℕ) (place count : ℕ) → placed_at word line ≡ Ok (place, count)
        → (line ≡ placed_line word place count) × IsNumber place × IsNumber count }
    ensures placed_again { (word : List ℕ) (place count : ℕ) → Stops is_ascii_digit (word ++ decimal count)
        → IsNumber place → IsNumber count → placed_at word (placed_line word place count) ≡ Ok (place, count) }
    ensures set_found { (line : List ℕ) (place : ℕ) (value : Value) → set_at line ≡ Ok (place, value)
        → (line ≡ set_line place value) × IsNumber place × IsValue value }
    ensures set_again { (place : ℕ) (value : Value) → IsNumber place → IsValue value
        → set_at (set_line place value) ≡ Ok (place, value) }
{
    numbers_are_read_as_written();
    values_are_read_as_written();
    words_stand_in_front();
}
