//! The line of the answer of an entangled statement: its place, and its heads.
ghost use Rattle.std.specs.Prelude.{◌≡◌};
ghost use Rattle.ent_value.specs.Refusal.{Gives};
ghost use Rattle.ent_history.specs.Heads.{fact_at, facts_at, heads_at};

use crate::word::{first_byte, name};
use ent_semantics::Fact;
use ent_text::{LineFault, behind, number, row};
use ent_value::{Refusal, Sequence};
use std::alloc::Global;

/// A head behind a space: a name and a row.
#[tactic(auto, unfolding(crate::specs::Heads::fact_at))]
fn fact(alloc: Global, bytes: &[u8]) -> Result<(Fact, &[u8]), Refusal<LineFault>>
    ensures { Gives (λ x. (x.0, x.1.now)) result (fact_at bytes.now) }
{
    let rest = behind(b" ", bytes)?;
    let (relation, rest) = name(alloc, rest)?;
    let (values, rest) = row(alloc, rest)?;
    Ok((Fact { relation, values }, rest))
}

/// All heads in front.
fn facts(alloc: Global, bytes: &[u8]) -> Result<(Sequence<Fact>, &[u8]), Refusal<LineFault>>
    ensures { Gives (λ x. (x.0, x.1.now)) result (facts_at bytes.now) }
{
    let mut facts = Sequence::new(alloc);
    let mut rest = bytes;
    while first_byte(rest) == b' ' {
        match fact(alloc, rest) {
            Ok((fact, next)) => {
                facts.push(fact)?;
                rest = next;
            }
            Err(refusal) => return Err(refusal),
        }
    }
    Ok((facts, rest))
}

/// The line of an answer of heads: the statement's place, and its heads, one at least.
#[tactic(auto, unfolding(crate::specs::Heads::heads_at))]
pub fn heads(alloc: Global, line: &[u8]) -> Result<(u64, Sequence<Fact>), Refusal<LineFault>>
    ensures { Gives (λ told. told) result (heads_at line.now) }
{
    let (place, rest) = number(line)?;
    let rest = behind(b" answer", rest)?;
    let (facts, end) = facts(alloc, rest)?;
    if !end.is_empty() {
        return Err(Refusal::Fault(LineFault::Misfit));
    }
    if facts.is_empty() {
        return Err(Refusal::Fault(LineFault::Misfit));
    }
    Ok((place, facts))
}
