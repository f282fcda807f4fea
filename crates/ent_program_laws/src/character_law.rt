//! Laws of whole characters. Nothing here has a body; what holds is in the contracts.
ghost use Rattle.std.specs.Prelude.{◌≡◌, ◌↔◌, ℕ, List, Ok, length, map};
ghost use Rattle.std.specs.List.{AllByRecursion, range_with_len};
ghost use Rattle.std.specs.Str.{IsUtf8};
ghost use Rattle.ent_value.specs.Print.{quoted};
ghost use Rattle.ent_tree.specs.declared.script.Input.{Input};
ghost use Rattle.ent_sql.specs.Reading.{reading};
ghost use Rattle.ent_semantics.specs.Database.{Database};
ghost use Rattle.ent_semantics.specs.declared.book.Book.{Book};
ghost use Rattle.ent_book.specs.Report2.{report_2_text};
ghost use Rattle.ent_history.specs.declared.history.History.{History};
ghost use Rattle.ent_history.specs.Text.{history_text};
ghost use Rattle.ent_history.specs.Told.{told_by};
ghost use Rattle.ent_report_laws.specs.Tellable.{CanBeTold};
ghost use Rattle.ent_program_laws.specs.Characters.{HoldsCharacters, IsOpeningOfCharacters, IsScriptOfCharacters};

use ent_history::reports_tell_of_books;
use ent_sql::reading_is_exact;
use ent_text::reader_is_exact;

/// A text between quotes, in which each quote is doubled, is UTF-8 exactly where the text is.
pub fn quotes_are_doubled_among_characters()
    ensures { (text : List ℕ) → IsUtf8 (quoted text) ↔ IsUtf8 text }
{}

/// Where a text that is read is UTF-8, so are the texts in its opening rows and the literals in its scripts.
pub fn texts_of_characters_say_characters()
    ensures opening { (text : List ℕ) (input : Input)
        → reading text ≡ Ok input → IsUtf8 text → IsOpeningOfCharacters input.opening }
    ensures scripts { (text : List ℕ) (input : Input)
        → reading text ≡ Ok input → IsUtf8 text → AllByRecursion IsScriptOfCharacters input.scripts }
{
    reader_is_exact();
    reading_is_exact();
}

/// The text of a history that can be told is UTF-8 where the values that it tells and the literals in its scripts are.
pub fn histories_of_characters_have_texts_of_characters()
    ensures { (history : History)
        → CanBeTold history → HoldsCharacters history → IsUtf8 (history_text history) }
{}

/// The report of a book is UTF-8 where what is told by it can be told, its values and the literals in its scripts are
/// UTF-8, and its fates are those of its transactions by number, from 1 on.
pub fn books_of_characters_have_reports_of_characters()
    ensures { (book : Book Database)
        → map (λ fated. fated.tx) book.fates ≡ range_with_len 1 (length book.fates)
        → CanBeTold (told_by book) → HoldsCharacters (told_by book) → IsUtf8 (report_2_text book) }
{
    reports_tell_of_books();
    histories_of_characters_have_texts_of_characters();
}
