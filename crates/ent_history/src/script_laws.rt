//! Laws: functions without a body, whose contracts say what holds of every text.
ghost use Rattle.std.specs.Prelude.{◌≡◌, ◌↔◌, ◌+◌, ◌≤◌, ◌++◌, ℕ, List, length};
ghost use Rattle.ent_book.specs.Report2.{line_count};
ghost use Rattle.ent_history.specs.Draft.{Draft};
ghost use Rattle.ent_history.specs.Scripts.{ScriptIsNext, ScriptBreaksOff};
ghost use Rattle.ent_history.specs.Begins.{HasWholeLines, BeginsScript, script_line};

/// Where a script can come next, a text of a `script` line, of whole lines and of a rest that ends no line breaks off
/// inside a script exactly if these lines begin one of so many lines.
pub fn scripts_break_off_in_their_lines()
    ensures { (draft : Draft) (count : ℕ) (lines unended : List ℕ) → ScriptIsNext draft → HasWholeLines lines
        → line_count unended ≡ 0 → count ≤ 9223372036854775807
        → ScriptBreaksOff draft (script_line (length draft.told.scripts + 1) count ++ (lines ++ unended))
        ↔ BeginsScript draft.told lines count }
{}
