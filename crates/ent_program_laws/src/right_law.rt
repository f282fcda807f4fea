//! Laws of the reports of legal books. Nothing here has a body; what holds is in the contracts.
ghost use Rattle.std.specs.Prelude.{◌≡◌, [], None, false, length, map};
ghost use Rattle.std.specs.List.{AllByRecursion, range_with_len};
ghost use Rattle.std.specs.Str.{IsUtf8};
ghost use Rattle.ent_lists.specs.Sets as set;
ghost use Rattle.ent_form.specs.Catalogue.{schemas_of};
ghost use Rattle.ent_form.specs.OpeningFault.{opening_fault};
ghost use Rattle.ent_form.specs.ScriptFaults.{script_faults};
ghost use Rattle.ent_semantics.specs.declared.book.Book.{Book};
ghost use Rattle.ent_semantics.specs.Book.{IsLegal, JournalIsRight};
ghost use Rattle.ent_semantics.specs.Database.{Database, Name};
ghost use Rattle.ent_book.specs.Report2.{report_2_text};
ghost use Rattle.ent_check_report.specs.Verdicts.{IsVerdict};
ghost use Rattle.ent_check_report.specs.declared.verdict.Verdict.TheVariants.{Yes};
ghost use Rattle.ent_program_laws.specs.Reportable.{CanBeReported};
ghost use Rattle.ent_history.specs.Told.{book_of, told_by, told_opening};
ghost use Rattle.ent_history.specs.Stands.{Tells};
ghost use Rattle.ent_history.specs.Formed.{is_declared};
ghost use Rattle.ent_program_laws.specs.Unplaced.{unplaced_book};

use crate::{
    faults_are_the_same_without_places, legal_books_are_legal_without_places,
    read_views_can_be_told, reports_are_the_same_without_places, runs_answer_what_can_be_told,
    tables_can_be_told, told_openings_hold_rows,
};
use ent_check_report::reports_that_are_right_tell_of_legal_books;
use ent_form::first_fault_is_first;
use ent_history::reports_tell_of_books;
use ent_print::places_do_not_show;
use ent_report_laws::{
    books_over_told_openings_are_legal, read_openings_can_be_told,
    reports_of_tellable_books_are_told, resolved_scripts_keep_to_declared_tables,
    scripts_have_the_same_faults, told_openings_are_alike,
};
use ent_semantics::statements_keep_to_their_uses;

/// What the report of a book tells is the book, its opening by name and without places, where its fates are those of
/// its transactions by number, from 1 on, its journal and its fates fit together, and it has no rows in tables that
/// aren't declared.
#[tactic(auto, using(crate::proofs::Again::book_again))]
pub fn books_are_told_by_their_reports()
    ensures { (book : Book Database)
        → map (λ fated. fated.tx) book.fates ≡ range_with_len 1 (length book.fates)
        → JournalIsRight book
        → ((name : Name) → is_declared book.opening.tables name ≡ false → book.database name ≡ set.empty)
        → book_of (told_by book) ≡ record book { opening = told_opening book.opening } }
{}

/// A legal book over an opening and scripts without a fault of form has no rows in tables that aren't declared.
pub fn legal_books_keep_to_declared_tables()
    ensures { (book : Book Database)
        → IsLegal book
        → opening_fault book.opening ≡ None
        → AllByRecursion (λ script. script_faults (schemas_of book.opening.tables) script ≡ []) book.scripts
        → (name : Name) → is_declared book.opening.tables name ≡ false → book.database name ≡ set.empty }
{
    statements_keep_to_their_uses();
    resolved_scripts_keep_to_declared_tables();
    first_fault_is_first();
}

/// The report of a legal book that can be reported tells what is told by the book without its places, and so it tells
/// of a legal book.
pub fn reports_of_legal_books_are_told()
    ensures { (book : Book Database)
        → IsLegal book
        → CanBeReported book
        → Tells (report_2_text book) (told_by (unplaced_book book))
        × IsLegal (book_of (told_by (unplaced_book book))) }
{
    statements_keep_to_their_uses();
    resolved_scripts_keep_to_declared_tables();
    first_fault_is_first();
    places_do_not_show();
    legal_books_are_legal_without_places();
    faults_are_the_same_without_places();
    reports_are_the_same_without_places();
    told_openings_are_alike();
    scripts_have_the_same_faults();
    books_over_told_openings_are_legal();
    read_openings_can_be_told();
    runs_answer_what_can_be_told();
    read_views_can_be_told();
    tables_can_be_told();
    told_openings_hold_rows();
    reports_tell_of_books();
    reports_of_tellable_books_are_told();
}

/// The report of a legal book that can be reported is answered `yes`, where it is a text of whole characters.
pub fn reports_of_legal_books_are_right()
    ensures { (book : Book Database)
        → IsLegal book
        → CanBeReported book
        → IsUtf8 (report_2_text book)
        → IsVerdict (report_2_text book) Yes }
{
    reports_of_legal_books_are_told();
    reports_that_are_right_tell_of_legal_books();
}
