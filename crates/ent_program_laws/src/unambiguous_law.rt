//! Laws of reports that are read. Nothing here has a body; what holds is in the contracts.
ghost use Rattle.std.specs.Prelude.{◌≡◌, ℕ, List};
ghost use Rattle.std.specs.Str.{IsUtf8};
ghost use Rattle.ent_check_report.specs.Verdicts.{IsVerdict};
ghost use Rattle.ent_check_report.specs.declared.verdict.Verdict.{Verdict};
ghost use Rattle.ent_history.specs.declared.history.History.{History};
ghost use Rattle.ent_history.specs.Fault.{HasFormFault, IsNoReport};
ghost use Rattle.ent_history.specs.Stands.{Tells};
ghost use Rattle.ent_history.specs.declared.finding.Thing.{Thing};
ghost use Rattle.ent_report_reader.specs.Located.{StandsAt};

use ent_history::{
    heads_are_read_as_written, joints_are_read_as_written, openings_are_read_as_written,
    transactions_are_read_as_written,
};
use ent_sql_laws::printed_text_is_itself;

/// A text tells of one history only.
pub fn texts_tell_of_one_history()
    ensures { (text : List ℕ) (one other : History) → Tells text one → Tells text other → one ≡ other }
{
    printed_text_is_itself();
    transactions_are_read_as_written();
    openings_are_read_as_written();
    heads_are_read_as_written();
    joints_are_read_as_written();
}

/// A text that tells a history has no fault of form.
pub fn told_texts_have_no_form_fault()
    ensures { (text : List ℕ) (history : History) (line : ℕ)
        → Tells text history → HasFormFault text line → ⊥ }
{
    printed_text_is_itself();
    transactions_are_read_as_written();
    openings_are_read_as_written();
    heads_are_read_as_written();
    joints_are_read_as_written();
}

/// A text of whole characters that tells a history is a report: there is no line at which it isn't one.
pub fn told_texts_of_characters_are_reports()
    ensures { (text : List ℕ) (history : History) (line : ℕ)
        → IsUtf8 text → Tells text history → IsNoReport text line → ⊥ }
{
    told_texts_have_no_form_fault();
}

/// There is only one line at which a text is no report.
pub fn texts_stop_at_one_line()
    ensures { (text : List ℕ) (one other : ℕ) → IsNoReport text one → IsNoReport text other → one ≡ other }
{
    printed_text_is_itself();
    transactions_are_read_as_written();
    openings_are_read_as_written();
    heads_are_read_as_written();
    joints_are_read_as_written();
}

/// A thing stands at one line of a text only.
pub fn things_stand_at_one_line()
    ensures { (text : List ℕ) (thing : Thing) (one other : ℕ)
        → StandsAt text thing one → StandsAt text thing other → one ≡ other }
{
    printed_text_is_itself();
    transactions_are_read_as_written();
    openings_are_read_as_written();
    heads_are_read_as_written();
    joints_are_read_as_written();
}

/// A text has one verdict only.
pub fn texts_have_one_verdict()
    ensures { (text : List ℕ) (one other : Verdict) → IsVerdict text one → IsVerdict text other → one ≡ other }
{
    texts_tell_of_one_history();
    told_texts_of_characters_are_reports();
    texts_stop_at_one_line();
    things_stand_at_one_line();
}
