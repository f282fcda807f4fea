//! The batch that is on.
use ent_waiting::{Rank, WaitingPlace};
use std::alloc::{AllocError, Global};
use std::collections::BTreeSet;

/// Those of a batch: an ordinary script alone, or a meeting alone.
#[derive(Drop)]
pub(crate) struct Batch {
    pub(crate) tickets: Vec<u64>,
    /// Where each of them stood before.
    pub(crate) places: Vec<WaitingPlace>,
    /// Against whose patience it counts.
    pub(crate) root: Option<u64>,
    /// In which queue those of it come who have no fate of their own.
    pub(crate) rank: Rank,
    /// The number of the first group that tells of it.
    pub(crate) group: u64,
}

impl Batch {
    /// Its tickets as a set.
    pub(crate) fn set(&self, alloc: Global) -> Result<BTreeSet<u64>, AllocError> {
        let mut set = BTreeSet::new(alloc);
        for ticket in self.tickets.as_slice() {
            set.insert(*ticket)?;
        }
        Ok(set)
    }

    /// Where one of them stood before.
    pub(crate) fn place_of(&self, number: usize) -> Option<WaitingPlace> {
        self.places.as_slice().get(number).copied()
    }
}
