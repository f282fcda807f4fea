//! What stands behind a finding.
use ent_semantics::{Answer, Fact, Failure};
use ent_value::{Row, Sequence};

/// What is right where a report isn't, or what of it isn't true, as the check of a rule came to it.
#[derive(Drop)]
pub enum Evidence {
    /// What the statement answers.
    Answer(Answer),
    /// Why the statement can't be carried out.
    Fails(Failure),
    /// Of the member's statement the `IN (SELECT ..)` of this number, counted from 1, isn't true under its values.
    Membership(u64),
    /// Of the member's statement the comparison of this number, counted from 1, isn't true under its values.
    Comparison(u64),
    /// The member's statement has so many written variables, and so many values are told.
    Values { wanted: u64, told: u64 },
    /// What a statement demands, and no member of its joint answer offers.
    Unmet { tx: u64, place: u64, demand: Fact },
    /// The rows of the table, ascending.
    Rows(Sequence<Row>),
}
