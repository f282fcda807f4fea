//! Who is posted, and under which keys.
ghost use Rattle.std.specs.Prelude.{◌≡◌, ◌≤◌, ◌<◌, ◌||◌, ℕ, false, MatchOption, OnOk, OnErr};
ghost use Rattle.ent_meetings.specs.Keys.{has_key, have_key};
ghost use Rattle.ent_meetings.specs.Postings.{Agrees, Posts, PostsSome, Unposts, agrees_at};

use crate::Pattern;
use crate::entry::{Entry, first_under};
use crate::key::{key_at, known_at, unknown_at};
use std::alloc::AllocError;
use std::collections::BTreeSet;

/// Under which keys those who wait are posted.
pub(crate) type Postings = BTreeSet<Entry>;

/// Posts a ticket under the keys of a pattern.
fn post_pattern(postings: &mut Postings, ticket: u64, pattern: &Pattern) -> Result<(), AllocError>
    ensures ok { OnOk result (Posts ticket (λ key. has_key key pattern.now) postings.old postings.new) }
    ensures err { OnErr result (PostsSome ticket (λ key. has_key key pattern.now) postings.old postings.new) }
{
    for place in 0..=pattern.terms.len() {
        let key = key_at(pattern, place);
        postings.insert(Entry { key, ticket })?;
    }
    Ok(())
}

/// Posts a ticket under the keys of patterns. Where memory runs out, it is posted under some of them.
pub(crate) fn post(
    postings: &mut Postings,
    ticket: u64,
    patterns: &[Pattern],
) -> Result<(), AllocError>
    ensures ok { OnOk result (Posts ticket (have_key patterns.now) postings.old postings.new) }
    ensures err { OnErr result (PostsSome ticket (have_key patterns.now) postings.old postings.new) }
{
    for pattern in patterns {
        post_pattern(postings, ticket, pattern)?;
    }
    Ok(())
}

/// Takes out the entries of a ticket under the keys of a pattern.
fn unpost_pattern(postings: &mut Postings, ticket: u64, pattern: &Pattern)
    ensures { Unposts ticket (λ key. has_key key pattern.now) postings.old postings.new }
{
    for place in 0..=pattern.terms.len() {
        let key = key_at(pattern, place);
        postings.remove(&Entry { key, ticket });
    }
}

/// Takes out the entries of a ticket under the keys of patterns.
pub(crate) fn unpost(postings: &mut Postings, ticket: u64, patterns: &[Pattern])
    ensures { Unposts ticket (have_key patterns.now) postings.old postings.new }
{
    for pattern in patterns {
        unpost_pattern(postings, ticket, pattern);
    }
}

/// The least ticket from this one on that is posted with a pattern's own term at a place, or with an unknown one.
fn first_agreeing(postings: &Postings, pattern: &Pattern, place: usize, from: u64) -> Option<u64>
    ensures { MatchOption result
        ((ticket : ℕ) → from ≤ ticket → agrees_at postings.now pattern.now place ticket ≡ false)
        (λ first. (from ≤ first)
        × ((ticket : ℕ) → from ≤ ticket → ticket < first → agrees_at postings.now pattern.now place ticket ≡ false)) }
{
    let known = first_under(postings, key_at(pattern, place), from);
    let unknown = first_under(postings, unknown_at(pattern, place), from);
    match (known, unknown) {
        (Some(own), Some(other)) => Some(own.min(other)),
        (Some(own), None) => Some(own),
        (None, other) => other,
    }
}

/// From this ticket on, the first that may agree with a pattern: none before it does. Its known terms rule out the
/// tickets one after the other, so the one that the fewest share rules out the most.
pub(crate) fn leap(postings: &Postings, pattern: &Pattern, from: u64) -> Option<u64>
    ensures { MatchOption result
        ((ticket : ℕ) → from ≤ ticket → Agrees postings.now pattern.now ticket → ⊥)
        (λ first. (from ≤ first)
        × ((ticket : ℕ) → from ≤ ticket → ticket < first → Agrees postings.now pattern.now ticket → ⊥)) }
{
    let length = pattern.terms.len();
    let mut first = from;
    let mut is_known = false;
    for place in 0..length {
        if known_at(pattern, place).is_some() {
            first = first_agreeing(postings, pattern, place, first)?;
            is_known = true;
        }
    }
    if is_known {
        Some(first)
    } else {
        first_agreeing(postings, pattern, length, from)
    }
}
