//! The line of a table of the opening: its name, its columns, and how many rows follow.
ghost use Rattle.std.specs.Prelude.{◌≡◌};
ghost use Rattle.ent_value.specs.Refusal.{Gives};
ghost use Rattle.ent_history.specs.Openings.{are_distinct, column_at, columns_at, kind_at};
ghost use Rattle.ent_history.specs.Openings.{next_column_at, opening_at};

use crate::word::{first_byte, name};
use ent_semantics::is_column_among;
use ent_text::{LineFault, behind, number};
use ent_tree::{Column, Create, Identifier, MOST_PARTS};
use ent_value::{Kind, Limited, Refusal};
use std::alloc::Global;

/// A kind, as its word in capitals; the first letter tells.
#[tactic(auto, unfolding(crate::specs::Openings::kind_at))]
fn kind(bytes: &[u8]) -> Result<(Kind, &[u8]), Refusal<LineFault>>
    ensures { Gives (λ x. (x.0, x.1.now)) result (kind_at bytes.now) }
{
    if first_byte(bytes) == b'I' {
        let rest = behind(b"INT", bytes)?;
        return Ok((Kind::Int, rest));
    }
    let rest = behind(b"TEXT", bytes)?;
    Ok((Kind::Text, rest))
}

/// A column: its name and its kind. It has no place.
#[tactic(auto, unfolding(crate::specs::Openings::column_at))]
fn column(alloc: Global, bytes: &[u8]) -> Result<(Column, &[u8]), Refusal<LineFault>>
    ensures { Gives (λ x. (x.0, x.1.now)) result (column_at bytes.now) }
{
    let (name, rest) = name(alloc, bytes)?;
    let rest = behind(b" ", rest)?;
    let (kind, rest) = kind(rest)?;
    let name = Identifier { name, place: 0 };
    Ok((Column { name, kind }, rest))
}

/// A column behind a comma and a space.
#[tactic(auto, unfolding(crate::specs::Openings::next_column_at))]
fn next_column(alloc: Global, bytes: &[u8]) -> Result<(Column, &[u8]), Refusal<LineFault>>
    ensures { Gives (λ x. (x.0, x.1.now)) result (next_column_at bytes.now) }
{
    let rest = behind(b", ", bytes)?;
    column(alloc, rest)
}

/// Columns, each behind a comma and a space: 1 to [`MOST_PARTS`].
#[tactic(auto, unfolding(crate::specs::Openings::columns_at))]
fn columns(
    alloc: Global,
    bytes: &[u8],
) -> Result<(Limited<Column, MOST_PARTS>, &[u8]), Refusal<LineFault>>
    ensures { Gives (λ x. (x.0, x.1.now)) result (columns_at bytes.now) }
{
    let mut columns = Limited::new(alloc);
    let (first, next) = column(alloc, bytes)?;
    columns.push(first)?;
    let mut rest = next;
    while columns.len() < MOST_PARTS {
        if first_byte(rest) != b',' {
            return Ok((columns, rest));
        }
        match next_column(alloc, rest) {
            Ok((column, next)) => {
                columns.push(column)?;
                rest = next;
            }
            Err(refusal) => return Err(refusal),
        }
    }
    Ok((columns, rest))
}

/// Whether no column has the name of another.
fn are_distinct(columns: &[Column]) -> bool
    ensures { result ≡ are_distinct columns.now }
{
    for (index, column) in columns.iter().enumerate() {
        if is_column_among(&columns[index + 1..], &column.name.name) {
            return false;
        }
    }
    true
}

/// The line of a table of the opening: the table, without places, and how many rows follow. It has 1 to [`MOST_PARTS`]
/// columns of distinct names.
#[tactic(auto, unfolding(crate::specs::Openings::opening_at))]
pub fn opening(alloc: Global, line: &[u8]) -> Result<(Create, u64), Refusal<LineFault>>
    ensures { Gives (λ told. told) result (opening_at line.now) }
{
    let rest = behind(b"opening ", line)?;
    let (name, rest) = name(alloc, rest)?;
    let rest = behind(b" (", rest)?;
    let (columns, rest) = columns(alloc, rest)?;
    let rest = behind(b") ", rest)?;
    let (count, end) = number(rest)?;
    if !end.is_empty() {
        return Err(Refusal::Fault(LineFault::Misfit));
    }
    if !are_distinct(columns.as_slice()) {
        return Err(Refusal::Fault(LineFault::Misfit));
    }
    let name = Identifier { name, place: 0 };
    Ok((Create { name, columns }, count))
}
