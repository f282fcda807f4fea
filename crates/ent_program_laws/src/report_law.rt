//! The law of the program's reports. Nothing here has a body; what holds is in the contract.
ghost use Rattle.std.specs.Prelude.{◌≤◌, ℕ, List, length};
ghost use Rattle.ent_check_report.specs.Verdicts.{IsVerdict};
ghost use Rattle.ent_check_report.specs.declared.verdict.Verdict.TheVariants.{Yes};
ghost use Rattle.ent_book.specs.Version.{text_of};
ghost use Rattle.ent_book.specs.declared.version.ReportVersion.TheVariants.{Two};
ghost use Rattle.ent_core.specs.Book.{IsBookOf};
ghost use Rattle.ent_input.specs.Reading.{IsInput};
ghost use Rattle.ent_semantics.specs.Database.{Database};
ghost use Rattle.ent_semantics.specs.declared.book.Book.{Book};
ghost use Rattle.ent_tree.specs.declared.script.Input.{Input};

use crate::reports_of_finished_books_are_right;

/// The report of version 2 of a book of an input is answered `yes`, where it has no more bytes than one that is
/// checked; and what the program writes, with workers or without, is the report of such a book.
pub fn reports_of_the_program_are_right()
    ensures { (bytes : List ℕ) (input : Input) (book : Book Database)
        → IsInput bytes input
        → IsBookOf input book
        → length (text_of Two book) ≤ 1099511627776
        → IsVerdict (text_of Two book) Yes }
{
    reports_of_finished_books_are_right();
}
