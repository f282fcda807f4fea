//! What sessions are given.
use ent_group::Tx;
use ent_semantics::Answer;
use ent_tree::{Opening, Script};
use ent_value::Sequence;

/// A script that was taken, and the number of its transaction.
#[derive(Drop)]
pub struct Ticket {
    pub tx: Tx,
    pub script: Script,
}

/// A transaction that committed: its number in the journal, from 1, in how many runs it took part, and its answers.
#[derive(Drop)]
pub struct Receipt {
    pub number: u64,
    pub tx: Tx,
    pub runs: u64,
    pub answers: Sequence<Answer>,
}

/// What a manager was opened over: the opening, and how many scripts were submitted at once.
#[derive(Drop)]
pub struct First {
    pub opening: Opening,
    pub count: usize,
}
