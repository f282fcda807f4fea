//! The line of a joint answer: its number, and the places of its members.
ghost use Rattle.std.specs.Prelude.{◌≡◌};
ghost use Rattle.ent_value.specs.Refusal.{Gives};
ghost use Rattle.ent_history.specs.JointLines.{joint_at, place_at, places_at, rise};

use crate::word::first_byte;
use ent_text::{LineFault, behind, number};
use ent_value::{Refusal, Sequence};
use std::alloc::Global;

/// A statement's transaction and place, behind a space.
#[tactic(auto, unfolding(crate::specs::JointLines::place_at))]
fn place(bytes: &[u8]) -> Result<((u64, u64), &[u8]), Refusal<LineFault>>
    ensures { Gives (λ x. (x.0, x.1.now)) result (place_at bytes.now) }
{
    let rest = behind(b" ", bytes)?;
    let (tx, rest) = number(rest)?;
    let rest = behind(b".", rest)?;
    let (place, rest) = number(rest)?;
    Ok(((tx, place), rest))
}

/// All places in front.
fn places(alloc: Global, bytes: &[u8]) -> Result<(Sequence<(u64, u64)>, &[u8]), Refusal<LineFault>>
    ensures { Gives (λ x. (x.0, x.1.now)) result (places_at bytes.now) }
{
    let mut places = Sequence::new(alloc);
    let mut rest = bytes;
    while first_byte(rest) == b' ' {
        match place(rest) {
            Ok((place, next)) => {
                places.push(place)?;
                rest = next;
            }
            Err(refusal) => return Err(refusal),
        }
    }
    Ok((places, rest))
}

/// Whether the transactions rise.
fn rise(places: &[(u64, u64)]) -> bool
    ensures { result ≡ rise places.now }
{
    let mut rest = places;
    while let [place, others @ ..] = rest {
        if let [next, ..] = others {
            if place.0 >= next.0 {
                return false;
            }
        }
        rest = others;
    }
    true
}

/// The line of a joint answer: its number, and its members' places, each a transaction and a place, one at least. The
/// transactions rise.
#[tactic(auto, unfolding(crate::specs::JointLines::joint_at))]
pub fn joint(alloc: Global, line: &[u8]) -> Result<(u64, Sequence<(u64, u64)>), Refusal<LineFault>>
    ensures { Gives (λ told. told) result (joint_at line.now) }
{
    let rest = behind(b"joint ", line)?;
    let (number, rest) = number(rest)?;
    let (places, end) = places(alloc, rest)?;
    if !end.is_empty() {
        return Err(Refusal::Fault(LineFault::Misfit));
    }
    if places.is_empty() {
        return Err(Refusal::Fault(LineFault::Misfit));
    }
    if !rise(places.as_slice()) {
        return Err(Refusal::Fault(LineFault::Misfit));
    }
    Ok((number, places))
}
