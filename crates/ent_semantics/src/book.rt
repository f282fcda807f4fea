//! What transactions came to.
use crate::answer::{Answer, Failure};
use ent_tree::{Opening, Script};
use ent_value::{Sequence, Value};

/// What became of a transaction. `runs` counts the runs that it took part in.
#[derive(Clone, Copy, Debug, PartialEq, Eq)]
pub enum Fate {
    /// It committed as the number-th, counted from 1.
    Committed { number: u64, runs: u64 },
    /// It took part in as many runs as its script asks for, and committed in none of them; it left nothing.
    GaveUp { runs: u64 },
    /// Its script ended with ROLLBACK; it left nothing.
    RolledBack { runs: u64 },
    /// A statement couldn't be carried out; it left nothing.
    Failed { failure: Failure, runs: u64 },
}

/// A transaction, by its number from 1, and what became of it.
#[derive(Clone, Copy, Debug, PartialEq, Eq)]
pub struct Fated {
    pub tx: u64,
    pub fate: Fate,
}

/// A committed transaction, and the answers of its statements, in order.
pub struct Entry {
    pub tx: u64,
    pub answers: Sequence<Answer>,
}

impl Drop for Entry {
    fn drop(self) {
        let Entry {
            tx: _tx,
            answers: _answers,
        } = self;
    }
}

/// An entangled statement that was answered: its transaction, its place in the script, counted from 1, and the value of
/// each of its written variables, in order of their first appearance.
pub struct Member {
    pub tx: u64,
    pub place: u64,
    pub grounding: Sequence<Value>,
}

impl Drop for Member {
    fn drop(self) {
        let Member {
            tx: _tx,
            place: _place,
            grounding: _grounding,
        } = self;
    }
}

/// Entangled statements that were answered together, by number of their transactions.
pub struct JointAnswer {
    pub members: Sequence<Member>,
}

impl Drop for JointAnswer {
    fn drop(self) {
        let JointAnswer { members: _members } = self;
    }
}

/// What scripts came to over an opening. `D` is how the database is held.
#[derive(Drop)]
pub struct Book<D> {
    pub opening: Opening,
    /// In order of their numbers, from 1.
    pub scripts: Sequence<Script>,
    /// In order of the commits.
    pub journal: Sequence<Entry>,
    /// Those of committed transactions, in the order in which they were made.
    pub joint_answers: Sequence<JointAnswer>,
    /// By number of the transactions, each once.
    pub fates: Sequence<Fated>,
    pub database: D,
}
