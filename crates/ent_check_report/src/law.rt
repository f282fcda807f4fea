//! Laws of verdicts. Nothing here has a body; what holds is in the contracts.
ghost use Rattle.std.specs.Prelude.{◌≡◌, ◌↔◌, ℕ, List, Some};
ghost use Rattle.std.specs.Str.{IsUtf8};
ghost use Rattle.ent_check_report.specs.Verdicts.{IsVerdict};
ghost use Rattle.ent_check_report.specs.declared.verdict.Verdict.TheVariants.{Yes};
ghost use Rattle.ent_history.specs.declared.history.History.{History};
ghost use Rattle.ent_history.specs.Told.{book_of};
ghost use Rattle.ent_history.specs.Stands.{Tells};
ghost use Rattle.ent_history.specs.Formed.{IsFormed};
ghost use Rattle.ent_history.specs.Verdict.{first_finding};
ghost use Rattle.ent_history.specs.declared.finding.Finding.{Finding};
ghost use Rattle.ent_report_reader.specs.Located.{TellsOf};
ghost use Rattle.ent_semantics.specs.Book.{IsLegal};

use ent_history::nothing_is_found_where_books_are_legal;
use ent_report_laws::told_histories_are_formed;

/// The verdict on a text is `yes` exactly where it is one of whole characters and tells of a legal book.
pub fn reports_that_are_right_tell_of_legal_books()
    ensures { (text : List ℕ)
        → IsVerdict text Yes
        ↔ (IsUtf8 text × (history : History) × Tells text history × IsLegal (book_of history)) }
{
    told_histories_are_formed();
    nothing_is_found_where_books_are_legal();
}

/// What breaks a rule first in a formed history is one of the things that it tells of.
pub(crate) fn found_things_are_told()
    ensures { (history : History) (finding : Finding) → IsFormed history → first_finding history ≡ Some finding
        → TellsOf history finding.thing }
{}
