//! Laws of the form of a report. Nothing here has a body; what holds is in the contracts.
ghost use Rattle.std.specs.Prelude.{◌≡◌, ◌↔◌, ℕ, ◌≤◌, List, [], length, map, None};
ghost use Rattle.std.specs.List.{AllByRecursion, range_with_len};
ghost use Rattle.ent_book.specs.Report2.{report_2_text};
ghost use Rattle.ent_form.specs.Catalogue.{schemas_of};
ghost use Rattle.ent_form.specs.OpeningFault.{opening_fault};
ghost use Rattle.ent_form.specs.ScriptFaults.{script_faults};
ghost use Rattle.ent_history.specs.declared.history.History.{History};
ghost use Rattle.ent_history.specs.Text.{history_text};
ghost use Rattle.ent_history.specs.Told.{told_by};
ghost use Rattle.ent_history.specs.Scripts.{IsScript};
ghost use Rattle.ent_history.specs.Stands.{Tells};
ghost use Rattle.ent_report_laws.specs.Tellable.{AreTablesOf, CanBeTold, IsJointTold, IsOpeningTold};
ghost use Rattle.ent_history.specs.Formed.{IsFormed};
ghost use Rattle.ent_semantics.specs.Database.{Database};
ghost use Rattle.ent_semantics.specs.declared.book.Book.{Book};
ghost use Rattle.ent_tree.specs.declared.limits.TheConstants.{MOST_SCRIPTS};

use crate::declared_tables::resolved_scripts_keep_to_declared_tables;
use ent_form::first_fault_is_first;
use ent_history::reports_tell_of_books;

/// A text that tells a history is that history's.
pub fn told_texts_are_texts_of_histories()
    ensures { (text : List ℕ) (history : History) → Tells text history → text ≡ history_text history }
{}

/// A history that a text tells is formed, and neither its opening nor a script of it has a fault of form.
pub fn told_histories_are_formed()
    ensures formed { (text : List ℕ) (history : History) → Tells text history → IsFormed history }
    ensures opening { (text : List ℕ) (history : History)
        → Tells text history → opening_fault history.opening ≡ None }
    ensures scripts { (text : List ℕ) (history : History) → Tells text history
        → AllByRecursion (λ script. script_faults (schemas_of history.opening.tables) script ≡ []) history.scripts }
{
    resolved_scripts_keep_to_declared_tables();
    first_fault_is_first();
}

/// A history that can be told is told by its text.
pub fn tellable_histories_are_told()
    ensures { (history : History) → CanBeTold history → Tells (history_text history) history }
{}

/// The report of a book tells what is told by it, where that can be told and its fates are those of its transactions by
/// number, from 1 on.
pub fn reports_of_tellable_books_are_told()
    ensures { (book : Book Database)
        → map (λ fated. fated.tx) book.fates ≡ range_with_len 1 (length book.fates)
        → CanBeTold (told_by book) → Tells (report_2_text book) (told_by book) }
{
    reports_tell_of_books();
}

/// The opening that a text tells has all that one can have that is told.
pub fn told_openings_can_be_told()
    ensures { (text : List ℕ) (history : History) → Tells text history → IsOpeningTold history.opening }
{}

/// The scripts that a text tells are such as a report can show, and no more than an input has.
pub fn told_scripts_can_be_told()
    ensures limit { (text : List ℕ) (history : History) → Tells text history → length history.scripts ≤ MOST_SCRIPTS }
    ensures each { (text : List ℕ) (history : History) → Tells text history
        → AllByRecursion (IsScript history) history.scripts }
{}

/// The joint answers that a text tells have all that one can have that is told.
pub fn told_joints_can_be_told()
    ensures { (text : List ℕ) (history : History) → Tells text history
        → AllByRecursion (IsJointTold history) history.joint_answers }
{}

/// The tables at the end that a text tells are those of its opening, each with rows that can stand in it.
pub fn told_tables_can_be_told()
    ensures { (text : List ℕ) (history : History) → Tells text history
        → AreTablesOf history.opening.tables history.tables }
{}

/// What a text tells can be told: a text tells a history exactly where it is its text and that can be told.
pub fn told_histories_can_be_told()
    ensures { (text : List ℕ) (history : History)
        → Tells text history ↔ (text ≡ history_text history) × CanBeTold history }
{}
