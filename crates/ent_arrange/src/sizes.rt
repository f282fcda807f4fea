//! Sizes of meetings that fill a block.
ghost use Rattle.std.specs.Prelude.{◌<◌, ◌≤◌};

use crate::meeting::Meeting;
use ent_group::MOST_MEMBERS;
use std::alloc::{AllocError, Global};

/// How many meetings of each size have no place yet.
#[derive(Drop)]
pub(crate) struct Sizes {
    counts: Vec<usize>,
}

/// Totals below 64, a bit each.
#[derive(Clone, Copy, Debug, PartialEq, Eq)]
struct Totals(u64);

impl Totals {
    /// The total of nothing alone.
    const NONE: Totals = Totals(1);

    /// These totals, and these with so much more.
    fn and_more(self, size: usize) -> Self
        requires { size < 64 }
    {
        Totals(self.0 | (self.0 << size))
    }

    fn has(self, total: usize) -> bool
        requires { total < 64 }
    {
        (self.0 >> total) & 1 == 1
    }
}

impl Sizes {
    pub(crate) fn of(alloc: Global, meetings: &[Meeting]) -> Result<Self, AllocError> {
        let mut counts = vec![in alloc; 0usize; MOST_MEMBERS + 1]?;
        for meeting in meetings {
            if let Some(count) = counts.get_mut(meeting.len()) {
                *count = count.saturating_add(1);
            }
        }
        Ok(Sizes { counts })
    }

    /// A meeting of this size gets its place.
    pub(crate) fn take(&mut self, size: usize) {
        if let Some(count) = self.counts.get_mut(size) {
            *count = count.saturating_sub(1);
        }
    }

    fn count(&self, size: usize) -> usize {
        self.counts.get(size).copied().unwrap_or(0)
    }

    /// For each size, whether meetings of that size and of others fill this room exactly.
    pub(crate) fn filling(&self, room: usize) -> [bool; MOST_MEMBERS + 1]
        requires { room ≤ MOST_MEMBERS }
    {
        let mut filling = [false; MOST_MEMBERS + 1];
        for size in 1..=room {
            filling[size] = self.count(size) > 0 && self.can_fill(size, room - size);
        }
        filling
    }

    /// Whether meetings fill this room exactly, without one of this size.
    fn can_fill(&self, without: usize, room: usize) -> bool
        requires { room < MOST_MEMBERS }
    {
        let mut totals = Totals::NONE;
        for size in 1..=room {
            let others = usize::from(size == without);
            let count = self.count(size).saturating_sub(others);
            for _ in 0..count.min(room / size) {
                totals = totals.and_more(size);
            }
        }
        totals.has(room)
    }
}
