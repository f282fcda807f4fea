//! What is seen of a member of a run when nothing can be answered.
use ent_group::{Members, Tx};
use ent_lock::Mode;
use ent_value::Name;

/// What the demands of a posted statement lack.
#[derive(Debug, Drop)]
pub enum Need {
    /// It isn't posted.
    Nothing,
    /// Nobody offers a match for the demand of this number, from 1, the first such; and its text, as
    /// `('Minnie', _) IN ANSWER Trip`, with `_` where a value isn't known.
    Unmet { number: usize, demand: Vec<u8> },
    /// These offer a match for each, in order of the demands.
    Met(Members),
}

/// A table that another member holds, in a mode that is in conflict with the one in which it is asked for.
#[derive(Debug, Drop)]
pub struct Block {
    pub holder: Tx,
    pub table: Name,
    pub asked: Mode,
    pub held: Mode,
}

/// Over whom a posted statement hangs on a demand for which nobody offers a match.
#[derive(Debug, Drop)]
pub struct Lacking {
    /// From the statement's own transaction, each needs the next one, and the last has the demand.
    pub way: Members,
    pub number: usize,
    pub demand: Vec<u8>,
}

/// A step of a deadlock: who waited, and on what.
#[derive(Debug, Drop)]
pub struct Step {
    pub from: Tx,
    pub block: Block,
}

/// What is seen of a member of a run when nothing can be answered.
#[derive(Debug, Drop)]
pub struct Observation {
    /// The least member of its group.
    pub group: Tx,
    pub need: Need,
    /// By number of the holders; none where it isn't blocked.
    pub blocks: Vec<Block>,
}
