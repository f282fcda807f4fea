//! The law of `yes`. Nothing here has a body but calls of laws; what holds is in the contracts.
ghost use Rattle.std.specs.Prelude.{◌≡◌, ◌↔◌, ◌≤◌, ℕ, List, length};
ghost use Rattle.ent_book.specs.Report2.{report_2_text};
ghost use Rattle.ent_check_report.specs.Verdicts.{IsVerdict};
ghost use Rattle.ent_check_report.specs.declared.check.TheConstants.{MOST_REPORT_BYTES};
ghost use Rattle.ent_check_report.specs.declared.verdict.Verdict.TheVariants.{Yes};
ghost use Rattle.ent_history.specs.declared.history.History.{History};
ghost use Rattle.ent_history.specs.Told.{book_of, told_by};
ghost use Rattle.ent_history.specs.Stands.{Tells};
ghost use Rattle.ent_program_laws.specs.Reportable.{CanBeReported};
ghost use Rattle.ent_semantics.specs.Book.{IsLegal};
ghost use Rattle.ent_semantics.specs.Database.{Database};
ghost use Rattle.ent_semantics.specs.declared.book.Book.{Book};
ghost use Rattle.ent_program_laws.specs.Unplaced.{unplaced_book};
ghost use Rattle.ent_program_laws.specs.Right.{IsReportOfLegalBook};

use crate::{
    reports_of_legal_books_are_right, reports_of_legal_books_are_told, texts_tell_of_one_history,
};
use ent_check_report::reports_that_are_right_tell_of_legal_books;
use ent_form::first_fault_is_first;
use ent_history::reports_tell_of_books;
use ent_report_laws::{told_histories_are_formed, told_histories_can_be_told};

/// Where a text tells of a legal book, that book's report is the text, and tells the same history; and the book can be
/// reported, where the text isn't longer than a report that is checked.
pub fn books_of_told_histories_are_told()
    ensures again { (text : List ℕ) (history : History) → Tells text history → IsLegal (book_of history)
        → told_by (book_of history) ≡ history }
    ensures report { (text : List ℕ) (history : History) → Tells text history → IsLegal (book_of history)
        → report_2_text (book_of history) ≡ text }
    ensures reported { (text : List ℕ) (history : History) → Tells text history → IsLegal (book_of history)
        → length text ≤ MOST_REPORT_BYTES → CanBeReported (book_of history) }
{
    first_fault_is_first();
    told_histories_are_formed();
    told_histories_can_be_told();
    reports_tell_of_books();
}

/// The verdict on a text is `yes` exactly where the text is one of whole characters and the report of a legal book that
/// can be reported; for texts that aren't longer than a report that is checked.
pub fn yes_is_said_of_reports_of_legal_books()
    ensures { (text : List ℕ) → length text ≤ MOST_REPORT_BYTES → IsVerdict text Yes ↔ IsReportOfLegalBook text }
{
    reports_that_are_right_tell_of_legal_books();
    books_of_told_histories_are_told();
    reports_of_legal_books_are_right();
}

/// Legal books that can be reported and have one report tell the same history, without the places of their openings and
/// scripts: so which book a text is the report of is known from the text, but for these and the order of its opening.
pub fn reports_tell_books_apart()
    ensures { (one other : Book Database) → IsLegal one → CanBeReported one → IsLegal other → CanBeReported other
        → report_2_text one ≡ report_2_text other
        → told_by (unplaced_book one) ≡ told_by (unplaced_book other) }
{
    reports_of_legal_books_are_told();
    texts_tell_of_one_history();
}
