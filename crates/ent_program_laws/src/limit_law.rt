//! Limits of constants and of the protocol. Nothing here does anything; what holds is in the contracts.
ghost use Rattle.std.specs.Prelude.{◌≡◌, ◌≢◌, ◌<◌, ◌≤◌, ◌↔◌, ℕ, List, length};
ghost use Rattle.ent_value.specs.declared.limits.TheConstants.{MOST_ROWS};
ghost use Rattle.ent_value.specs.declared.name.TheConstants.{LONGEST_NAME};
ghost use Rattle.ent_value.specs.declared.text.TheConstants.{LONGEST_TEXT};
ghost use Rattle.ent_tree.specs.declared.limits.TheConstants.{DEFAULT_RUNS, MOST_OPENING_ROWS, MOST_PARTS};
ghost use Rattle.ent_tree.specs.declared.limits.TheConstants.{MOST_RUNS, MOST_SCRIPTS, MOST_SOURCES};
ghost use Rattle.ent_tree.specs.declared.limits.TheConstants.{MOST_STATEMENTS, MOST_TABLES};
ghost use Rattle.ent_tree.specs.declared.script.Input.{Input};
ghost use Rattle.ent_tree.specs.declared.script.Script.{Script};
ghost use Rattle.ent_group.specs.declared.members.TheConstants.{MOST_MEMBERS};
ghost use Rattle.ent_protocol.specs.Event.{Full, Reply, Submit};
ghost use Rattle.ent_protocol.specs.Reached.{IsReached};
ghost use Rattle.ent_protocol.specs.Run.{Forms};
ghost use Rattle.ent_protocol.specs.State.{State, members};
ghost use Rattle.ent_protocol.specs.Step.{Step};
ghost use Rattle.ent_input.specs.Reading.{IsInput, IsNoInput};
ghost use Rattle.ent_input.specs.declared.fault.InputFault.TheVariants.{TooLong};
ghost use Rattle.ent_input.specs.declared.reading.TheConstants.{MOST_BYTES};
ghost use Rattle.ent_check_report.specs.declared.check.TheConstants.{MOST_REPORT_BYTES};

use ent_protocol_laws::transactions_stand_once;

/// Each limit, as a number. Columns of a table, items of a SELECT, values of a row, assignments of an UPDATE and
/// conditions of a WHERE are parts.
pub fn limits_are_numbers()
    ensures scripts { MOST_SCRIPTS ≡ 10000 }
    ensures members { MOST_MEMBERS ≡ 64 }
    ensures rows { MOST_ROWS ≡ 65536 }
    ensures opening_rows { MOST_OPENING_ROWS ≡ 65536 }
    ensures text_bytes { LONGEST_TEXT ≡ 255 }
    ensures name_bytes { LONGEST_NAME ≡ 63 }
    ensures tables { MOST_TABLES ≡ 64 }
    ensures parts { MOST_PARTS ≡ 16 }
    ensures sources { MOST_SOURCES ≡ 4 }
    ensures statements { MOST_STATEMENTS ≡ 64 }
    ensures runs { MOST_RUNS ≡ 1000 }
    ensures default_runs { DEFAULT_RUNS ≡ 8 }
    ensures input_bytes { MOST_BYTES ≡ 16777216 }
    ensures report_bytes { MOST_REPORT_BYTES ≡ 1099511627776 }
{}

/// An input has 16,777,216 bytes at most, and bytes are refused as too many exactly where there are more.
pub fn inputs_are_16_777_216_bytes_at_most()
    ensures within { (bytes : List ℕ) (input : Input) → IsInput bytes input → length bytes ≤ 16777216 }
    ensures refused { (bytes : List ℕ) → IsNoInput bytes TooLong ↔ 16777216 < length bytes }
{}

/// A script more than 10,000 is refused for that, and no other one is.
pub fn scripts_are_10_000_at_most<F>()
    ensures full { (forms : Forms F) (s : State) (script : Script) (reply : Reply F) (new : State)
        → 10000 ≤ length s.submitted
        → Step forms s (Submit script) reply new
        → reply ≡ Full script }
    ensures room { (forms : Forms F) (s : State) (script : Script) (reply : Reply F) (new : State)
        → length s.submitted < 10000
        → Step forms s (Submit script) reply new
        → reply ≢ Full script }
{}

/// In every state that is reached there are 64 members at most.
pub fn members_are_64_at_most<F>()
    ensures { (forms : Forms F) (s : State) → IsReached forms s → length (members s) ≤ 64 }
{
    transactions_stand_once::<F>();
}
