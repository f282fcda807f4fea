//! Cycles of transactions that wait for each other.
ghost use Rattle.std.specs.Prelude.{◌≡◌, ◌≢◌, ℕ, ◌+◌, List, ◌<◌, ◌≤◌, ◌⊎◌, ◌↔◌, length, slice_index, All, AllPairs};
ghost use Rattle.std.specs.Prelude.{Contains};
ghost use Rattle.std.specs.Prelude.{IfSome, IsNone};
ghost use Rattle.ent_group.specs.Cycle.{NamesAtMost, IsCycle, IsOnCycle, waiters_of};
ghost use Rattle.ent_group.specs.Marks.{IsMarked};
ghost use Rattle.ent_group.specs.Reach.{AreWaiters, IsAt, IsWalk, IsReach, greater};

use crate::marks::{Row, has_mark, join_over, with_mark};
use crate::members::{MOST_MEMBERS, Members, Tx};

/// A cycle of a waits-for relation, which is given as pairs of a waiter and one that it waits for: distinct
/// transactions, each waiting for the next, and the last for the first. The first is the greatest transaction that
/// stands on any cycle. There is none where no cycle stands. It takes no memory.
pub fn cycle(pairs: &[(Tx, Tx)]) -> Option<Members>
    requires { NamesAtMost MOST_MEMBERS pairs.now }
    ensures found { IfSome result (IsCycle pairs.now) }
    ensures greatest { IfSome result (λ members. (x : ℕ) → IsOnCycle pairs.now x → x ≤ slice_index members 0) }
    ensures none { IsNone result → (x : ℕ) → ¬ IsOnCycle pairs.now x }
{
    let waiters = waiters_of(pairs);
    let first = greatest_on_cycle(pairs, waiters.as_slice())?;
    cycle_from(pairs, first)
}

/// A list of pairs names at most twice as many transactions as it has pairs.
pub fn few_pairs_name_few()
    ensures { (pairs : List (ℕ × ℕ)) (most : ℕ) → length pairs + length pairs ≤ most → NamesAtMost most pairs }
{}

/// The greatest transaction that stands on a cycle: one that waits, over others, for itself.
fn greatest_on_cycle(pairs: &[(Tx, Tx)], waiters: &[Tx]) -> Option<Tx>
    requires { AreWaiters pairs.now waiters.now }
    ensures found { IfSome result (IsOnCycle pairs.now) }
    ensures greatest { IfSome result (λ w. (x : ℕ) → IsOnCycle pairs.now x → x ≤ w) }
    ensures none { IsNone result → (x : ℕ) → ¬ IsOnCycle pairs.now x }
{
    let rows = reach_of(pairs, waiters);
    let mut greatest = None;
    for (i, waiter) in waiters.iter().enumerate() {
        if has_mark(rows[i], i) {
            greatest = greater(greatest, Some(*waiter));
        }
    }
    greatest
}

/// The greater of two transactions, where there are two.
fn greater(left: Option<Tx>, right: Option<Tx>) -> Option<Tx>
    ensures { result ≡ greater left right }
{
    match (left, right) {
        (Some(x), Some(y)) => Some(x.max(y)),
        (None, other) => other,
        (other, None) => other,
    }
}

/// Those who wait, each once.
fn waiters_of(pairs: &[(Tx, Tx)]) -> Members
    requires { NamesAtMost MOST_MEMBERS pairs.now }
    ensures { AreWaiters pairs.now result }
{
    let mut waiters = Members::new();
    for (waiter, _) in pairs {
        if !waiters.contains(*waiter) {
            waiters.push(*waiter);
        }
    }
    waiters
}

/// A row for each waiter, which marks the waiters for whom it waits, directly or through others (Warshall): a pair
/// marks whom it names, and each waiter in turn hands on its marks to the rows that mark it.
fn reach_of(pairs: &[(Tx, Tx)], waiters: &[Tx]) -> [Row; MOST_MEMBERS]
    requires { AreWaiters pairs.now waiters.now }
    ensures { (i j : ℕ) → i < length waiters.now → j < length waiters.now
        → IsMarked result i j ↔ IsWalk pairs.now (slice_index waiters.now i) (slice_index waiters.now j) }
{
    let mut rows = [0; MOST_MEMBERS];
    for (waiter, awaited) in pairs {
        mark_pair(&mut rows, waiters, *waiter, *awaited);
    }
    for middle in 0..waiters.len() {
        join_over(&mut rows, middle);
    }
    rows
}

/// Marks one in the row of another, where both have a place.
fn mark_pair(rows: &mut [Row], waiters: &[Tx], waiter: Tx, awaited: Tx)
    requires distinct { AllPairs (λ x y. x ≢ y) waiters.now }
    requires bound { length waiters.now ≤ MOST_MEMBERS }
    requires rows { length rows.old ≡ MOST_MEMBERS }
    ensures { (i j : ℕ) → IsMarked rows.new i j
        ↔ (IsMarked rows.old i j ⊎ (IsAt waiters.now waiter i × IsAt waiters.now awaited j)) }
{
    if let (Some(from), Some(to)) = (place_of(waiters, waiter), place_of(waiters, awaited)) {
        rows[from] = with_mark(rows[from], to);
    }
}

/// Where a transaction stands in a list.
fn place_of(numbers: &[Tx], tx: Tx) -> Option<usize>
    ensures some { IfSome result (IsAt numbers.now tx) }
    ensures none { IsNone result → ¬ Contains numbers.now tx }
{
    for (i, number) in numbers.iter().enumerate() {
        if *number == tx {
            return Some(i);
        }
    }
    None
}

/// A cycle that begins with a transaction that waits, where it stands on one.
fn cycle_from(pairs: &[(Tx, Tx)], first: Tx) -> Option<Members>
    requires names { NamesAtMost MOST_MEMBERS pairs.now }
    requires waits { Contains (waiters_of pairs.now) first }
    ensures found { IfSome result (λ members. IsCycle pairs.now members × (slice_index members 0 ≡ first)) }
    ensures none { IsNone result → ¬ IsOnCycle pairs.now first }
{
    let mut reached = Members::of(first);
    let mut next = 0;
    while let Some(awaited) = reached.get(next) {
        extend(pairs, &mut reached, awaited);
        next += 1;
    }
    let second = place_awaited(pairs, reached.as_slice(), first)?;
    Some(close(pairs, reached.as_slice(), second))
}

/// Adds those who wait for one that is reached.
fn extend(pairs: &[(Tx, Tx)], reached: &mut Members, awaited: Tx)
    requires names { NamesAtMost MOST_MEMBERS pairs.now }
    requires reach { IsReach pairs.now reached.old }
    requires awaited { Contains reached.old awaited }
    ensures reach { IsReach pairs.now reached.new }
    ensures same { (k : ℕ) → k < length reached.old → slice_index reached.new k ≡ slice_index reached.old k }
    ensures longer { length reached.old ≤ length reached.new }
    ensures all { All (λ p. p.1 ≡ awaited → Contains reached.new p.0) pairs.now }
    ensures bound { length reached.new ≤ MOST_MEMBERS }
{
    for (waiter, other) in pairs {
        if *other == awaited && !reached.contains(*waiter) {
            reached.push(*waiter);
        }
    }
}

/// The place among those reached of one for which a transaction waits.
fn place_awaited(pairs: &[(Tx, Tx)], reached: &[Tx], waiter: Tx) -> Option<usize>
    ensures some { IfSome result (λ i.
        (i < length reached.now) × Contains pairs.now (waiter, slice_index reached.now i)) }
    ensures none { IsNone result → All (λ y. ¬ Contains pairs.now (waiter, y)) reached.now }
{
    for (from, awaited) in pairs {
        if *from == waiter {
            if let Some(place) = place_of(reached, *awaited) {
                return Some(place);
            }
        }
    }
    None
}

/// The cycle from the first of those reached to one of them that it waits for, and from there back to the first.
fn close(pairs: &[(Tx, Tx)], reached: &[Tx], second: usize) -> Members
    requires reach { IsReach pairs.now reached.now }
    requires bound { length reached.now ≤ MOST_MEMBERS }
    requires within { second < length reached.now }
    requires awaited { Contains pairs.now (slice_index reached.now 0, slice_index reached.now second) }
    ensures cycle { IsCycle pairs.now result }
    ensures first { slice_index result 0 ≡ slice_index reached.now 0 }
{
    let mut members = Members::of(reached[0]);
    let mut at = second;
    while at > 0 {
        let waiter = reached[at];
        members.push(waiter);
        at = place_awaited(pairs, &reached[..at], waiter).unwrap_or(0);
    }
    members
}
