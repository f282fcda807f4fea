//! What breaks a rule.

/// A rule of a report.
#[derive(Clone, Copy, Debug, PartialEq, Eq)]
pub enum Rule {
    /// The text is that of a report. Only a reader of texts finds that it isn't.
    Form,
    /// Commits are numbered from 1 on, each once, and no script that ends with ROLLBACK has committed.
    Journal,
    /// The members of joint answers are the entangled statements of what has committed, each once.
    Joint,
    /// A grounding is one over the database that its statement sees.
    Ground,
    /// An answer is the statement's.
    Answer,
    /// What a member demands is offered by a member of the same joint answer.
    Post,
    /// The tables are as the scripts leave them.
    Table,
}

/// A thing of a report. All numbers and places count from 1.
#[derive(Clone, Copy, Debug, PartialEq, Eq)]
pub enum Thing {
    /// The transaction of a number.
    Transaction(u64),
    /// The answer of a transaction's statement.
    Answer { tx: u64, place: u64 },
    /// The joint answer of a number.
    Joint(u64),
    /// The member of a number in a joint answer.
    Member { joint: u64, member: u64 },
    /// The table of a number, in the order in which they are shown.
    Table(u64),
}

/// A thing that breaks a rule.
#[derive(Clone, Copy, Debug, PartialEq, Eq)]
pub struct Finding {
    pub rule: Rule,
    pub thing: Thing,
}
