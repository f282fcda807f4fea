//! Numbers in a line, and its parts.
ghost use Rattle.std.specs.Prelude.{◌≡◌, ◌++◌, codes, IfOk, IfSome, Err};
ghost use Rattle.std.specs.Fmt.{decimal};
ghost use Rattle.ent_value.specs.declared.refusal.Refusal.TheVariants.{Fault};
ghost use Rattle.ent_text.specs.declared.line_fault.LineFault.TheVariants.{Misfit};
ghost use Rattle.ent_picture.specs.Trace.{listed};

use ent_group::Tx;
use ent_text::{LineFault, behind, number, numbers_are_read_as_written, words_stand_in_front};
use ent_value::Refusal;
use std::alloc::Global;

pub(crate) type Read<T> = Result<T, Refusal<LineFault>>;

/// The line isn't one of a trace.
pub(crate) fn misfit<T>() -> Read<T>
    ensures { result ≡ Err (Fault Misfit) }
{
    Err(Refusal::Fault(LineFault::Misfit))
}

/// What stands before the first blank of a text, and what stands behind it.
pub(crate) fn divided<'a>(text: &'a str) -> Option<(&'a str, &'a str)>
    ensures { IfSome result (λ parts. text.now ≡ parts.0.now ++ (codes " " ++ parts.1.now)) }
{
    text.split_once(' ')
}

/// The number that a text begins with, as it is printed, and what stands behind it.
fn front_number(text: &[u8]) -> Read<(u64, &[u8])>
    ensures ok { IfOk result (λ read. text.now ≡ decimal read.0 ++ read.1.now) }
{
    numbers_are_read_as_written();
    number(text)
}

/// What stands behind a word that a text begins with.
fn behind_word<'a>(word: &[u8], text: &'a [u8]) -> Read<&'a [u8]>
    ensures ok { IfOk result (λ rest. text.now ≡ word.now ++ rest.now) }
{
    words_stand_in_front();
    behind(word, text)
}

/// The number that a word is, as it is printed.
pub(crate) fn whole_number(word: &str) -> Read<u64>
    ensures ok { IfOk result (λ number. word.now ≡ decimal number) }
{
    let (value, rest) = front_number(word.as_bytes())?;
    if rest.is_empty() { Ok(value) } else { misfit() }
}

/// Transactions, one at least, a blank between each two.
#[tactic(auto, using(crate::proofs::Parts::begins, crate::proofs::Parts::goes_on, crate::proofs::Parts::shorter, crate::proofs::Parts::whole))]
pub(crate) fn transactions(alloc: Global, text: &str) -> Read<Vec<Tx>>
    ensures ok { IfOk result (λ members. codes " " ++ text.now ≡ listed members.items) }
{
    let mut members = Vec::new(alloc);
    let (first, mut rest) = front_number(text.as_bytes())?;
    members.push(first)?;
    while !rest.is_empty() {
        let (tx, next) = front_number(behind_word(b" ", rest)?)?;
        members.push(tx)?;
        rest = next;
    }
    Ok(members)
}

/// Two numbers with a point between them.
pub(crate) fn pair(word: &str) -> Read<(u64, u64)>
    ensures ok { IfOk result (λ pair. word.now ≡ decimal pair.0 ++ (codes "." ++ decimal pair.1)) }
{
    let (first, rest) = front_number(word.as_bytes())?;
    let (second, rest) = front_number(behind_word(b".", rest)?)?;
    if rest.is_empty() {
        Ok((first, second))
    } else {
        misfit()
    }
}
