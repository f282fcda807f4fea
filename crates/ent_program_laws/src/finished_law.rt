//! Laws of finished books. Nothing here has a body; what holds is in the contracts.
ghost use Rattle.std.specs.Prelude.{◌≡◌, ◌≤◌, ◌<◌, ℕ, [], AllPairs, Contains, List, None, Ok, length};
ghost use Rattle.std.specs.List.{AllByRecursion};
ghost use Rattle.std.specs.Str.{IsUtf8};
ghost use Rattle.ent_tree.specs.declared.limits.TheConstants.{MOST_RUNS};
ghost use Rattle.ent_tree.specs.declared.script.Input.{Input};
ghost use Rattle.ent_sql.specs.Reading.{reading};
ghost use Rattle.ent_form.specs.Catalogue.{schemas_of};
ghost use Rattle.ent_form.specs.OpeningFault.{opening_fault};
ghost use Rattle.ent_form.specs.ScriptFaults.{script_faults};
ghost use Rattle.ent_semantics.specs.declared.book.Book.{Book};
ghost use Rattle.ent_semantics.specs.declared.book.Fated.{Fated};
ghost use Rattle.ent_semantics.specs.declared.book.JointAnswer.{JointAnswer};
ghost use Rattle.ent_semantics.specs.declared.book.Member.{Member};
ghost use Rattle.ent_semantics.specs.Database.{Database};
ghost use Rattle.ent_book.specs.Report2.{report_2_text};
ghost use Rattle.ent_protocol_laws.specs.Fates.{HaveFates};
ghost use Rattle.ent_protocol.specs.Reached.{IsFinishedBook, IsReached};
ghost use Rattle.ent_protocol.specs.Run.{Forms};
ghost use Rattle.ent_protocol.specs.State.{State};
ghost use Rattle.ent_protocol_laws.specs.Attempts.{AskForMost, AsksForRun};
ghost use Rattle.ent_headline.specs.Resolved.{resolved_forms};
ghost use Rattle.ent_check_report.specs.Verdicts.{IsVerdict};
ghost use Rattle.ent_check_report.specs.declared.verdict.Verdict.TheVariants.{Yes};
ghost use Rattle.ent_report_laws.specs.Read.{IsOpeningRead};
ghost use Rattle.ent_program_laws.specs.Reportable.{CanBeReported, CountsRuns};

use crate::characters::reports_over_texts_are_of_characters;
use crate::reports_of_legal_books_are_right;
use ent_form::{FormFault, first_fault_is_first};
use ent_headline::{finished_books_are_legal, submitted_forms_are_resolved};
use ent_protocol_laws::{
    attempts_stay_within, events_lead_on, finished_scripts_have_fates, steps_go_on,
};
use ent_sql::reading_is_exact;
use ent_sql_laws::read_scripts_can_be_printed;
use ent_text::reader_is_exact;

/// In every state that is reached each joint answer names its members by rising number of their transactions.
pub fn joint_answers_come_by_number<F>()
    ensures { (forms : Forms F) (s : State) (joint : JointAnswer)
        → IsReached forms s
        → Contains s.joints joint
        → AllPairs (λ (first second : Member). first.tx < second.tx) joint.members }
{}

/// If each script asks for one run at least and for so many at most, each fate of a reached state counts one run at
/// least and so many at most.
pub fn fates_count_runs<F>()
    ensures { (forms : Forms F) (s : State) (most : ℕ) (fated : Fated)
        → IsReached forms s
        → AllByRecursion AsksForRun s.submitted
        → AskForMost most s
        → Contains s.fates fated
        → CountsRuns most fated.fate }
{
    steps_go_on::<F>();
    events_lead_on::<F>();
    attempts_stay_within::<F>();
}

/// The opening of an input that is read from a text is such as a report can show.
pub fn read_openings_can_be_shown()
    ensures { (text : List ℕ) (input : Input)
        → reading text ≡ Ok input
        → IsOpeningRead input.opening }
{
    reader_is_exact();
    reading_is_exact();
}

/// A book whose opening and scripts a text says, without a fault of form, can be reported, where each script has its
/// fate after 1 to 1,000 runs, joint answers name their members by number, and the report isn't too long.
pub fn books_over_texts_can_be_reported()
    ensures { (text : List ℕ) (book : Book Database)
        → reading text ≡ Ok (record { opening = book.opening; scripts = book.scripts })
        → opening_fault book.opening ≡ None
        → AllByRecursion (λ script. script_faults (schemas_of book.opening.tables) script ≡ []) book.scripts
        → HaveFates book
        → AllByRecursion (λ fated. CountsRuns MOST_RUNS fated.fate) book.fates
        → ((joint : JointAnswer) → Contains book.joint_answers joint
        → AllPairs (λ (first second : Member). first.tx < second.tx) joint.members)
        → length (report_2_text book) ≤ 1099511627776
        → CanBeReported book }
{
    read_openings_can_be_shown();
    read_scripts_can_be_printed();
}

/// A finished book over an input that is read from a text and whose opening has no fault of form can be reported, where
/// the report isn't too long.
pub fn finished_books_can_be_reported()
    ensures { (text : List ℕ) (input : Input) (book : Book Database)
        → reading text ≡ Ok input
        → opening_fault input.opening ≡ None
        → IsFinishedBook resolved_forms input.opening input.scripts book
        → length (report_2_text book) ≤ 1099511627776
        → CanBeReported book }
{
    joint_answers_come_by_number::<FormFault>();
    fates_count_runs::<FormFault>();
    read_openings_can_be_shown();
    read_scripts_can_be_printed();
    submitted_forms_are_resolved::<FormFault>();
    first_fault_is_first();
    finished_scripts_have_fates::<FormFault>();
}

/// The report of such a book is answered `yes`, where the text that its input is read from is one of whole characters.
pub fn reports_of_finished_books_are_right()
    ensures { (text : List ℕ) (input : Input) (book : Book Database)
        → reading text ≡ Ok input
        → IsUtf8 text
        → opening_fault input.opening ≡ None
        → IsFinishedBook resolved_forms input.opening input.scripts book
        → length (report_2_text book) ≤ 1099511627776
        → IsVerdict (report_2_text book) Yes }
{
    finished_books_are_legal();
    finished_books_can_be_reported();
    reports_of_legal_books_are_right();
    reports_over_texts_are_of_characters();
}
