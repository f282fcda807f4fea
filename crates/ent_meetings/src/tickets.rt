//! Lists of tickets.
ghost use Rattle.std.specs.Prelude.{◌≡◌, ◌↔◌, Contains, IfOk, IsTrue, map};
ghost use Rattle.std.specs.List.Sorted.{IsNonDecreasing, IsPermutation};

use std::alloc::{AllocError, Global};

/// The tickets by arrival.
pub(crate) fn by_arrival(alloc: Global, tickets: &[u64]) -> Result<Vec<u64>, AllocError>
    ensures same { IfOk result (λ sorted. IsPermutation tickets.now sorted.items) }
    ensures sorted { IfOk result (λ sorted. IsNonDecreasing sorted.items) }
{
    let mut sorted = Vec::from_slice(alloc, tickets)?;
    sorted.sort_unstable();
    Ok(sorted)
}

/// Whether two lists have the same tickets in the same order.
fn is_same(one: &[u64], other: &[u64]) -> bool
    ensures { IsTrue result ↔ (one.now ≡ other.now) }
{
    one == other
}

/// Whether the tickets are one of the lists.
pub(crate) fn is_among(lists: &[Vec<u64>], tickets: &[u64]) -> bool
    ensures { IsTrue result ↔ Contains (map (λ list. list.items) lists.now) tickets.now }
{
    for list in lists {
        if is_same(list.as_slice(), tickets) {
            return true;
        }
    }
    false
}
