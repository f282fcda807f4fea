//! When tables changed, and which of the tried meetings were told so.
use std::alloc::{AllocError, Global};

/// What is told of the changes of a table: the tried meetings that watch it are visited in the order of their numbers,
/// from where the last visit was, round to there.
#[derive(Clone, Copy)]
struct TableClock {
    /// When the table changed last.
    changed: u64,
    is_on: bool,
    /// The next number that is visited.
    at: u64,
    /// Whether the visits go on from the first number once the last one is over.
    turns_round: bool,
    /// Where the visits end after that.
    end: u64,
}

/// A table, and the number from which on its tried meetings are visited next.
#[derive(Clone, Copy)]
pub(crate) struct Visit {
    pub(crate) table: usize,
    pub(crate) from: u64,
    pub(crate) changed: u64,
}

/// The clocks of the declared tables.
#[derive(Drop)]
pub(crate) struct Clocks {
    now: u64,
    tables: Vec<TableClock>,
    /// Whose visits come next.
    turn: usize,
}

impl Clocks {
    pub(crate) fn new(alloc: Global, count: usize) -> Result<Self, AllocError> {
        let mut tables = Vec::with_capacity(alloc, count)?;
        for _ in 0..count {
            tables.push(TableClock {
                changed: 0,
                is_on: false,
                at: 0,
                turns_round: false,
                end: 0,
            })?;
        }
        Ok(Clocks {
            now: 0,
            tables,
            turn: 0,
        })
    }

    /// The time: how many changes there were.
    pub(crate) fn now(&self) -> u64 {
        self.now
    }

    /// When a table changed last.
    pub(crate) fn changed_at(&self, table: usize) -> u64 {
        match self.tables.as_slice().get(table) {
            Some(clock) => clock.changed,
            None => 0,
        }
    }

    /// A table changed. It takes no memory.
    pub(crate) fn change(&mut self, table: usize) {
        self.now = self.now.saturating_add(1);
        let now = self.now;
        if let Some(clock) = self.tables.as_mut_slice().get_mut(table) {
            clock.changed = now;
            clock.is_on = true;
            clock.turns_round = true;
            clock.end = clock.at;
        }
    }

    /// All tables may have changed.
    pub(crate) fn change_all(&mut self) {
        for table in 0..self.tables.len() {
            self.change(table);
        }
    }

    /// Whether some tried meetings weren't told yet.
    pub(crate) fn is_on(&self) -> bool {
        self.tables.as_slice().iter().any(|clock| clock.is_on)
    }

    /// The next visit.
    pub(crate) fn visit(&self) -> Option<Visit> {
        let tables = self.tables.as_slice();
        for count in 0..tables.len() {
            let later = self.turn.saturating_add(count);
            let table = if later < tables.len() {
                later
            } else {
                later.saturating_sub(tables.len())
            };
            if let Some(clock) = tables.get(table) {
                if clock.is_on {
                    return Some(Visit {
                        table,
                        from: clock.at,
                        changed: clock.changed,
                    });
                }
            }
        }
        None
    }

    /// The next tried meeting that watches a table has this number, or none does.
    pub(crate) fn visited(&mut self, table: usize, found: Option<u64>) {
        if let Some(clock) = self.tables.as_mut_slice().get_mut(table) {
            match found {
                Some(number) if clock.turns_round || number < clock.end => {
                    clock.at = number.saturating_add(1);
                }
                None if clock.turns_round => {
                    clock.at = 0;
                    clock.turns_round = false;
                }
                _ => clock.is_on = false,
            }
        }
        self.turn = table.saturating_add(1);
    }
}
