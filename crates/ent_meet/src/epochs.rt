//! What is kept of the book of an epoch that ended: its joint answers.
use ent_value::Sequence;

/// An entangled statement that was answered: the number of its commit in its epoch, and its place in the script, both
/// counted from 1.
#[derive(Clone, Copy, Debug, PartialEq, Eq)]
pub struct Answered {
    pub commit: u64,
    pub place: u64,
}

/// Statements that were answered together.
#[derive(Drop)]
pub struct Joint {
    pub members: Sequence<Answered>,
}

/// The joint answers of an epoch, in the order in which they were made.
#[derive(Drop)]
pub struct EpochJoints {
    pub epoch: u64,
    pub joints: Sequence<Joint>,
}
