//! What the entangled statements of a run offer and demand.
use ent_semantics::Fact;
use ent_value::Sequence;

/// What an entangled statement offers under its grounding, its heads, and what it demands, its postconditions.
pub struct StatementOffer {
    pub tx: u64,
    /// Its place in the script, counted from 1.
    pub place: u64,
    pub heads: Sequence<Fact>,
    pub posts: Sequence<Fact>,
}

impl Drop for StatementOffer {
    fn drop(self) {
        let StatementOffer {
            tx: _tx,
            place: _place,
            heads: _heads,
            posts: _posts,
        } = self;
    }
}
