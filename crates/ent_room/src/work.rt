//! What a step may cost, counted in comparisons of two patterns.

/// A step's work; ordinary scripts have half of it.
pub(crate) const MOST_OF_STEP: u64 = 65_536;
/// What a run costs for each of its members.
pub(crate) const RUN: u64 = 512;
/// The comparisons of one turn: what a run of two costs.
pub(crate) const MOST_OF_TURN: u64 = 1_024;
/// The comparisons for those by whom a meeting is widened: enough for as many as a run takes, if each has a demand or
/// two.
pub(crate) const MOST_OF_WIDENING: u64 = 8_192;
/// What a turn costs at least.
pub(crate) const LEAST_OF_TURN: u64 = 16;
/// The comparisons of one root since something changed for it.
pub(crate) const MOST_COMPARED: u64 = 65_536;
/// The meetings that one root tries since something changed for it.
pub(crate) const MOST_TRIES: u64 = 64;

/// Work that counts down.
#[derive(Clone, Copy)]
pub(crate) struct Work {
    left: u64,
    spent: u64,
}

impl Work {
    pub(crate) fn new(most: u64) -> Self {
        Work {
            left: most,
            spent: 0,
        }
    }

    pub(crate) fn charge(&mut self, cost: u64) {
        self.left = self.left.saturating_sub(cost);
        self.spent = self.spent.saturating_add(cost);
    }

    /// So many more patterns were compared.
    pub(crate) fn compare(&mut self, count: usize) {
        self.charge(count as u64);
    }

    pub(crate) fn is_over(&self) -> bool {
        self.left == 0
    }

    pub(crate) fn spent(&self) -> u64 {
        self.spent
    }
}
