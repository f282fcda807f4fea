//! Ways from one transaction to another.
use ent_group::{MOST_MEMBERS, Members, Tx};

/// Transactions that are reached from one, in breadth: each but the first from one that was reached before.
#[derive(Drop)]
pub(crate) struct Walk {
    reached: Members,
    /// Of each place the place from which it was reached.
    from: [usize; MOST_MEMBERS],
}

impl Walk {
    /// A walk from a transaction.
    pub(crate) fn new(tx: Tx) -> Self {
        Walk {
            reached: Members::of(tx),
            from: [0; MOST_MEMBERS],
        }
    }

    /// The transaction that was reached at a place, from 0.
    pub(crate) fn get(&self, place: usize) -> Option<Tx> {
        self.reached.get(place)
    }

    /// These are reached from the one at a place.
    pub(crate) fn reach(&mut self, members: &Members, from: usize) {
        for tx in members.as_slice() {
            self.put(*tx, from);
        }
    }

    fn put(&mut self, tx: Tx, from: usize) {
        if self.reached.contains(tx) || self.reached.is_full() {
            return;
        }
        if let Some(place) = self.from.get_mut(self.reached.len()) {
            *place = from;
        }
        self.reached.push(tx);
    }

    /// The way from the first one to the one at a place.
    pub(crate) fn way_to(&self, place: usize) -> Members {
        let back = self.way_back(place);
        let mut way = Members::new();
        for tx in back.as_slice().iter().rev() {
            if !way.is_full() {
                way.push(*tx);
            }
        }
        way
    }

    fn way_back(&self, last: usize) -> Members {
        let mut way = Members::new();
        let mut place = last;
        for _ in 0..MOST_MEMBERS {
            let Some(tx) = self.reached.get(place) else {
                break;
            };
            if !way.is_full() {
                way.push(tx);
            }
            if place == 0 {
                break;
            }
            place = self.from.get(place).copied().unwrap_or(0);
        }
        way
    }
}
