//! Variables of any names, with their values.
ghost use Rattle.std.specs.Prelude.{◌≡◌, IfOk};
ghost use Rattle.ent_value.specs.Refusal.{Gives};
ghost use Rattle.ent_report_reader.specs.Bindings.{all_bound_at, any_member_at, bound_at, values_of, variables_of};

use ent_history::{first_byte, name};
use ent_text::{LineFault, behind, number, value};
use ent_value::{Name, Refusal, Sequence, Value};
use std::alloc::{AllocError, Global};

/// A variable and its value.
#[derive(Drop)]
pub(crate) struct Bound {
    pub(crate) variable: Name,
    pub(crate) value: Value,
}

/// A variable and its value, behind a space.
#[tactic(auto, unfolding(crate::specs::Bindings::bound_at))]
fn one_bound(alloc: Global, bytes: &[u8]) -> Result<(Bound, &[u8]), Refusal<LineFault>>
    ensures { Gives (λ x. (x.0, x.1.now)) result (bound_at bytes.now) }
{
    let rest = behind(b" ", bytes)?;
    let (variable, rest) = name(alloc, rest)?;
    let rest = behind(b"=", rest)?;
    let (value, rest) = value(alloc, rest)?;
    Ok((Bound { variable, value }, rest))
}

/// All variables in front.
fn all_bound(alloc: Global, bytes: &[u8]) -> Result<(Sequence<Bound>, &[u8]), Refusal<LineFault>>
    ensures { Gives (λ x. (x.0, x.1.now)) result (all_bound_at bytes.now) }
{
    let mut all = Sequence::new(alloc);
    let mut rest = bytes;
    while first_byte(rest) == b' ' {
        match one_bound(alloc, rest) {
            Ok((bound, next)) => {
                all.push(bound)?;
                rest = next;
            }
            Err(refusal) => return Err(refusal),
        }
    }
    Ok((all, rest))
}

/// The line of a member: its transaction, its place, and variables of any names with their values.
#[tactic(auto, unfolding(crate::specs::Bindings::any_member_at))]
pub(crate) fn any_member(
    alloc: Global,
    line: &[u8],
) -> Result<(u64, u64, Sequence<Bound>), Refusal<LineFault>>
    ensures { Gives (λ told. told) result (any_member_at line.now) }
{
    let (tx, rest) = number(line)?;
    let rest = behind(b".", rest)?;
    let (place, rest) = number(rest)?;
    let (all, end) = all_bound(alloc, rest)?;
    if !end.is_empty() {
        return Err(Refusal::Fault(LineFault::Misfit));
    }
    Ok((tx, place, all))
}

/// The variables, and their values.
pub(crate) fn parted(
    alloc: Global,
    all: Sequence<Bound>,
) -> Result<(Sequence<Name>, Sequence<Value>), AllocError>
    ensures variables { IfOk result (λ x. x.0 ≡ variables_of all) }
    ensures values { IfOk result (λ x. x.1 ≡ values_of all) }
{
    let mut variables = Sequence::with_capacity(alloc, all.len())?;
    let mut values = Sequence::with_capacity(alloc, all.len())?;
    for bound in all.into_vec() {
        let Bound { variable, value } = bound;
        variables.push(variable)?;
        values.push(value)?;
    }
    Ok((variables, values))
}
