//! The law of the characters of reports. Nothing here has a body; what holds is in the contract.
ghost use Rattle.std.specs.Prelude.{◌≡◌, ℕ, List, Ok};
ghost use Rattle.std.specs.Str.{IsUtf8};
ghost use Rattle.ent_sql.specs.Reading.{reading};
ghost use Rattle.ent_book.specs.Report2.{report_2_text};
ghost use Rattle.ent_program_laws.specs.Reportable.{CanBeReported};
ghost use Rattle.ent_semantics.specs.Book.{IsLegal};
ghost use Rattle.ent_semantics.specs.Database.{Database};
ghost use Rattle.ent_semantics.specs.declared.book.Book.{Book};

use crate::{
    histories_of_characters_have_texts_of_characters, openings_are_the_same_without_places,
    reports_of_legal_books_are_told, runs_keep_texts, tables_keep_texts,
    texts_of_characters_say_characters,
};
use ent_print::places_do_not_show;
use ent_report_laws::told_histories_can_be_told;

/// The report of a legal book that can be reported is a text of whole characters, where a text of whole characters says
/// its opening and its scripts.
pub fn reports_over_texts_are_of_characters()
    ensures { (text : List ℕ) (book : Book Database)
        → reading text ≡ Ok (record { opening = book.opening; scripts = book.scripts })
        → IsUtf8 text
        → IsLegal book
        → CanBeReported book
        → IsUtf8 (report_2_text book) }
{
    histories_of_characters_have_texts_of_characters();
    openings_are_the_same_without_places();
    places_do_not_show();
    reports_of_legal_books_are_told();
    runs_keep_texts();
    tables_keep_texts();
    texts_of_characters_say_characters();
    told_histories_can_be_told();
}
