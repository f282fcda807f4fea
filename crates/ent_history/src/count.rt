//! Lines that say how many: tables at the end, and answers of counts and rows; and the answer of a SET.
ghost use Rattle.std.specs.Prelude.{◌≡◌};
ghost use Rattle.ent_value.specs.Refusal.{Gives};
ghost use Rattle.ent_history.specs.Counts.{counted_at, placed_at, set_at, table_at};

use ent_text::{LineFault, behind, number, value};
use ent_value::{Name, Refusal, Value};
use std::alloc::Global;

/// A number behind a word, up to the end of the line.
#[tactic(auto, unfolding(crate::specs::Counts::counted_at))]
fn counted(word: &[u8], bytes: &[u8]) -> Result<u64, Refusal<LineFault>>
    ensures { Gives (λ count. count) result (counted_at word.now bytes.now) }
{
    let rest = behind(word, bytes)?;
    let (count, end) = number(rest)?;
    if !end.is_empty() {
        return Err(Refusal::Fault(LineFault::Misfit));
    }
    Ok(count)
}

/// The line of this table at the end: how many rows follow.
#[tactic(auto, unfolding(crate::specs::Counts::table_at))]
pub fn table(name: &Name, line: &[u8]) -> Result<u64, Refusal<LineFault>>
    ensures { Gives (λ count. count) result (table_at name.now line.now) }
{
    let rest = behind(b"table ", line)?;
    let rest = behind(name.as_bytes(), rest)?;
    counted(b" ", rest)
}

/// The line of an answer that is a number behind a word, as ` count ` and ` rows `: the statement's place, and the
/// number.
#[tactic(auto, unfolding(crate::specs::Counts::placed_at))]
pub fn placed(word: &[u8], line: &[u8]) -> Result<(u64, u64), Refusal<LineFault>>
    ensures { Gives (λ told. told) result (placed_at word.now line.now) }
{
    let (place, rest) = number(line)?;
    let count = counted(word, rest)?;
    Ok((place, count))
}

/// The line of the answer of a SET: its place, and the value.
#[tactic(auto, unfolding(crate::specs::Counts::set_at))]
pub fn set(alloc: Global, line: &[u8]) -> Result<(u64, Value), Refusal<LineFault>>
    ensures { Gives (λ told. told) result (set_at line.now) }
{
    let (place, rest) = number(line)?;
    let rest = behind(b" set ", rest)?;
    let (value, end) = value(alloc, rest)?;
    if !end.is_empty() {
        drop(value);
        return Err(Refusal::Fault(LineFault::Misfit));
    }
    Ok((place, value))
}
