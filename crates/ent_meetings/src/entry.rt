//! What stands in the index.
ghost use Rattle.std.specs.Prelude.{◌≡◌, ◌≤◌, ◌<◌, ℕ, false, true, MatchOption};
ghost use Rattle.ent_meetings.specs.Postings.{has};

use std::collections::BTreeSet;

/// That somebody is posted under a key: entries come by key, and those of a key by arrival.
#[derive(Clone, Copy, Debug, PartialEq, Eq, PartialOrd, Ord)]
pub(crate) struct Entry {
    pub(crate) key: u64,
    pub(crate) ticket: u64,
}

/// The least ticket from this one on that is posted under the key.
pub(crate) fn first_under(entries: &BTreeSet<Entry>, key: u64, from: u64) -> Option<u64>
    ensures { MatchOption result
        ((ticket : ℕ) → from ≤ ticket → has entries.now key ticket ≡ false)
        (λ first. (from ≤ first) × (has entries.now key first ≡ true)
        × ((ticket : ℕ) → from ≤ ticket → ticket < first → has entries.now key ticket ≡ false)) }
{
    let first = entries.range(Entry { key, ticket: from }..).next()?;
    if first.key == key {
        Some(first.ticket)
    } else {
        None
    }
}
