//! Where a lane stands while a trace is gone over.
use crate::Demand;
use crate::picture::{Bar, Life, Shade, What};
use ent_group::Tx;

/// What a transaction does.
#[derive(Clone, Copy, Debug, PartialEq, Eq)]
pub(crate) enum State {
    /// It is in no run.
    Away,
    /// It is in a run, and may go on.
    Ready,
    /// A statement of it is carried out.
    Out,
    Posted,
    Prepared,
    Blocked(Tx),
    HeldBack(Demand),
}

impl State {
    /// Whether it waits for others.
    pub(crate) fn is_waiting(self) -> bool {
        match self {
            State::Away | State::Ready | State::Out => false,
            State::Posted | State::Prepared | State::Blocked(_) | State::HeldBack(_) => true,
        }
    }
}

/// Where a lane stands.
#[derive(Clone, Copy, Debug, PartialEq, Eq)]
pub(crate) struct Stand {
    pub(crate) lane: u64,
    /// The place of its next statement, counted from 1.
    pub(crate) place: u64,
    pub(crate) state: State,
    /// The column from which it stands so.
    pub(crate) since: u64,
    /// The number of the event by which it does.
    pub(crate) event: u64,
    /// The column from which it is in the run.
    pub(crate) entered: u64,
    /// Its group, and the column from which it is in it.
    pub(crate) group: Option<(u64, u64)>,
    /// The index of the mark with which it last left a run.
    pub(crate) left: Option<usize>,
}

impl Stand {
    /// A lane that is in no run.
    pub(crate) fn new(lane: u64) -> Self {
        Stand {
            lane,
            place: 1,
            state: State::Away,
            since: 0,
            event: 0,
            entered: 0,
            group: None,
            left: None,
        }
    }

    /// In a run from a column on.
    pub(crate) fn entering(self, column: u64) -> Self {
        Stand {
            place: 1,
            state: State::Ready,
            since: column,
            entered: column,
            group: None,
            ..self
        }
    }

    /// In another state from a column and an event on.
    pub(crate) fn turned(self, state: State, column: u64, event: u64) -> Self {
        Stand {
            state,
            since: column,
            event,
            ..self
        }
    }

    /// The bar of what ends at a column and an event, if it is shown; a statement's answer stands in the exchange of
    /// this index.
    pub(crate) fn bar(self, column: u64, event: u64, answer: Option<usize>) -> Option<Bar> {
        let what = match self.state {
            State::Away | State::Ready => return None,
            State::Out => What::Statement { answer },
            State::Posted => What::Posted,
            State::Prepared => What::Prepared,
            State::Blocked(holder) => What::Blocked(holder),
            State::HeldBack(demand) => What::HeldBack(demand),
        };
        Some(Bar {
            lane: self.lane,
            from: self.since,
            to: column,
            first: self.event,
            last: event,
            place: self.place,
            what,
        })
    }

    /// Its time in a run that ends at a column.
    pub(crate) fn life(self, column: u64) -> Life {
        Life {
            lane: self.lane,
            from: self.entered,
            to: column,
        }
    }

    /// Its time in a group that ends at a column, if it is in one.
    pub(crate) fn shade(self, column: u64) -> Option<Shade> {
        let (group, from) = self.group?;
        Some(Shade {
            lane: self.lane,
            from,
            to: column,
            group,
        })
    }
}
