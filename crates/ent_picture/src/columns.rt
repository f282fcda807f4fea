//! The columns of a picture.
ghost use Rattle.std.specs.List.Sorted.{IsStrictlyIncreasing};
ghost use Rattle.ent_picture.specs.Columns.{AreBefore, AreSoFar};

use std::alloc::{AllocError, Global};

/// The columns that a picture has so far, each with the number of its first event, counted from 1; and the number of
/// the present event. The numbers rise, and none is above that of the present event.
#[derive(Drop)]
pub(crate) struct Columns {
    numbers: Vec<u64>,
    event: u64,
    /// Whether the present event has its column.
    is_shown: bool,
    ghost by_number: { IsStrictlyIncreasing numbers.items },
    ghost so_far: { AreSoFar numbers.items event },
    ghost before: { AreBefore numbers.items event is_shown },
}

impl Columns {
    /// No column, before the first event.
    pub(crate) fn new(alloc: Global) -> Self {
        Columns {
            numbers: Vec::new(alloc),
            event: 0,
            is_shown: true,
        }
    }

    /// The number of the present event; 0 before the first.
    pub(crate) fn event(&self) -> u64 {
        self.event
    }

    /// The index of the last column; 0 where there is none.
    pub(crate) fn last(&self) -> u64 {
        self.numbers.len().saturating_sub(1) as u64
    }

    /// The next event is the present one, and has no column yet.
    pub(crate) fn pass(&mut self) {
        if self.event < u64::MAX {
            self.event += 1;
            self.is_shown = false;
        }
    }

    /// The column of the present event; it gets one where it has none, and then it is told that it is new.
    #[tactic(auto, using(crate::proofs::Rising::rising_more, crate::proofs::Rising::up_to_more))]
    pub(crate) fn show(&mut self) -> Result<bool, AllocError> {
        if self.is_shown {
            return Ok(false);
        }
        self.numbers.push(self.event)?;
        self.is_shown = true;
        Ok(true)
    }

    /// The numbers of the columns.
    pub(crate) fn into_numbers(self) -> Vec<u64>
        ensures by_number { IsStrictlyIncreasing result.items }
    {
        let Columns { numbers, .. } = self;
        numbers
    }
}
