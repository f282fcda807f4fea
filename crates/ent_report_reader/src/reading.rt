//! Lines as they are read: what stands in them, or that nothing of the sort does.
ghost use Rattle.std.specs.Prelude.{◌≡◌, ◌++◌, ℕ};
ghost use Rattle.std.specs.Char.{is_ascii_digit};
ghost use Rattle.std.specs.Fmt.{decimal};
ghost use Rattle.ent_value.specs.Refusal.{Gives};
ghost use Rattle.ent_text.specs.Lexing.{Stops};
ghost use Rattle.ent_report_reader.specs.Reading.{IsHeadsLine, IsJointLine, IsOpeningLine, IsPlacedLine, IsRowLine};
ghost use Rattle.ent_report_reader.specs.Reading.{IsSetLine, IsTableLine, IsTxLine, Reads};
ghost use Rattle.ent_report_reader.specs.Reading.{whole_row_at};
ghost use Rattle.ent_report_reader.specs.Bindings.{IsAnyMember, IsKnownMember};
ghost use Rattle.ent_report_reader.specs.Scripts.{IsNumberedLine};

use crate::bindings::{Bound, any_member};
use ent_history::{
    counts_are_read_as_written, heads, heads_are_read_as_written, joint,
    joints_are_read_as_written, member, members_are_read_as_written, opening,
    openings_are_read_as_written, placed, script, scripts_are_read_as_written, set, table,
    transaction, transactions_are_read_as_written,
};
use ent_semantics::{Fact, Fate};
use ent_text::{LineFault, row, rows_are_read_as_written};
use ent_tree::Create;
use ent_value::{Name, Refusal, Row, Sequence, Value};
use std::alloc::Global;

/// The line of a table of the opening: the table, and how many rows follow.
pub(crate) fn opening_line(alloc: Global, text: &[u8]) -> Result<(Create, u64), Refusal<LineFault>>
    ensures { Reads (IsOpeningLine text.now) result }
{
    openings_are_read_as_written();
    opening(alloc, text)
}

/// The line of a joint answer: its number, and the places of its members, each a transaction and a place.
pub(crate) fn joint_line(
    alloc: Global,
    text: &[u8],
) -> Result<(u64, Sequence<(u64, u64)>), Refusal<LineFault>>
    ensures { Reads (IsJointLine text.now) result }
{
    joints_are_read_as_written();
    joint(alloc, text)
}

/// The line above a script: the script's number, and how many lines follow.
pub(crate) fn script_line(text: &[u8]) -> Result<(u64, u64), Refusal<LineFault>>
    ensures { Reads (IsNumberedLine text.now) result }
{
    scripts_are_read_as_written();
    script(text)
}

/// The line of a transaction: its number and its fate.
pub(crate) fn tx_line(text: &[u8]) -> Result<(u64, Fate), Refusal<LineFault>>
    ensures { Reads (IsTxLine text.now) result }
{
    transactions_are_read_as_written();
    transaction(text)
}

/// The line of this table at the end: how many rows follow.
pub(crate) fn table_line(name: &Name, text: &[u8]) -> Result<u64, Refusal<LineFault>>
    ensures { Reads (IsTableLine name.now text.now) result }
{
    counts_are_read_as_written();
    table(name, text)
}

/// The line of an answer that is a number behind a word that no digit begins: the statement's place, and the number.
pub(crate) fn placed_line(word: &[u8], text: &[u8]) -> Result<(u64, u64), Refusal<LineFault>>
    requires { (n : ℕ) → Stops is_ascii_digit (word.now ++ decimal n) }
    ensures { Reads (IsPlacedLine word.now text.now) result }
{
    counts_are_read_as_written();
    placed(word, text)
}

/// The line of the answer of a SET: its place, and the value.
pub(crate) fn set_line(alloc: Global, text: &[u8]) -> Result<(u64, Value), Refusal<LineFault>>
    ensures { Reads (IsSetLine text.now) result }
{
    counts_are_read_as_written();
    set(alloc, text)
}

/// The line of the answer of an entangled statement: its place, and its heads.
pub(crate) fn heads_line(
    alloc: Global,
    text: &[u8],
) -> Result<(u64, Sequence<Fact>), Refusal<LineFault>>
    ensures { Reads (IsHeadsLine text.now) result }
{
    heads_are_read_as_written();
    heads(alloc, text)
}

/// The line of a member: its transaction, its place, and a value for each of these variables.
pub(crate) fn known_member_line(
    alloc: Global,
    names: &[Name],
    text: &[u8],
) -> Result<(u64, u64, Sequence<Value>), Refusal<LineFault>>
    ensures { Reads (IsKnownMember names.now text.now) result }
{
    members_are_read_as_written();
    member(alloc, names, text)
}

/// The line of a member: its transaction, its place, and variables of any names with their values.
pub(crate) fn any_member_line(
    alloc: Global,
    text: &[u8],
) -> Result<(u64, u64, Sequence<Bound>), Refusal<LineFault>>
    ensures { Reads (IsAnyMember text.now) result }
{
    any_member(alloc, text)
}

/// A row up to the end of the line.
#[tactic(auto, unfolding(crate::specs::Reading::whole_row_at))]
fn whole_row(alloc: Global, text: &[u8]) -> Result<Row, Refusal<LineFault>>
    ensures { Gives (λ row. row) result (whole_row_at text.now) }
{
    let (row, end) = row(alloc, text)?;
    if !end.is_empty() {
        drop(row);
        return Err(Refusal::Fault(LineFault::Misfit));
    }
    Ok(row)
}

/// The row of a line.
pub(crate) fn row_line(alloc: Global, text: &[u8]) -> Result<Row, Refusal<LineFault>>
    ensures { Reads (IsRowLine text.now) result }
{
    rows_are_read_as_written();
    whole_row(alloc, text)
}
