//! Books of epochs that ended.
use ent_admission::FinishedBook;

/// The book of an epoch that ended.
#[derive(Drop)]
pub struct EpochBook {
    /// The number of the epoch.
    pub epoch: u64,
    pub book: FinishedBook,
}
