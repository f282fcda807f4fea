//! The line of a member of a joint answer: its place, and the values of its variables.
ghost use Rattle.std.specs.Prelude.{◌≡◌, map};
ghost use Rattle.ent_value.specs.Refusal.{Gives};
ghost use Rattle.ent_history.specs.Bindings.{binding_at, bindings_at, member_at};

use ent_text::{LineFault, behind, number, value};
use ent_value::{Name, Refusal, Sequence, Value};
use std::alloc::Global;

/// The value of this variable, and the bytes behind it.
#[tactic(auto, unfolding(crate::specs::Bindings::binding_at))]
fn binding<'a>(
    alloc: Global,
    name: &Name,
    bytes: &'a [u8],
) -> Result<(Value, &'a [u8]), Refusal<LineFault>>
    ensures { Gives (λ x. (x.0, x.1.now)) result (binding_at name.now bytes.now) }
{
    let rest = behind(b" ", bytes)?;
    let rest = behind(name.as_bytes(), rest)?;
    let rest = behind(b"=", rest)?;
    value(alloc, rest)
}

/// The values of just these variables, up to the end of the line.
#[tactic(auto, unfolding(crate::specs::Bindings::bindings_at))]
fn bindings(
    alloc: Global,
    names: &[Name],
    bytes: &[u8],
) -> Result<Sequence<Value>, Refusal<LineFault>>
    ensures { Gives (λ values. values) result (bindings_at names.now bytes.now) }
{
    let mut values = Sequence::with_capacity(alloc, names.len())?;
    let mut rest = bytes;
    for name in names {
        let (value, next) = binding(alloc, name, rest)?;
        values.push(value)?;
        rest = next;
    }
    if !rest.is_empty() {
        return Err(Refusal::Fault(LineFault::Misfit));
    }
    Ok(values)
}

/// The line of a member: its transaction, its place, and the values of just these variables.
#[tactic(auto, unfolding(crate::specs::Bindings::member_at))]
pub fn member(
    alloc: Global,
    names: &[Name],
    line: &[u8],
) -> Result<(u64, u64, Sequence<Value>), Refusal<LineFault>>
    ensures { Gives (λ told. told) result (member_at names.now line.now) }
{
    let (tx, rest) = number(line)?;
    let rest = behind(b".", rest)?;
    let (place, rest) = number(rest)?;
    let values = bindings(alloc, names, rest)?;
    Ok((tx, place, values))
}
