//! What stands before each evaluation.
use ent_eval::{Job, Work};
use ent_semantics::Statement;

/// Tables of so many rows in all are read in less time than it takes to wake another worker.
const FEW_ROWS: usize = 512;

/// So many statements are answered together in less time than it takes to wake another worker.
const FEW_STATEMENTS: usize = 8;

/// Is called before each evaluation, with no lock held. A service may slow down, count or look at jobs in it.
pub trait Gate: Drop {
    fn before(&self, job: &Job);

    /// Whether `before`, or the evaluation behind it, may take long. Then another worker of `serve` goes on meanwhile;
    /// so it is to be true where `before` waits for what others do.
    fn takes_long(&self, job: &Job) -> bool;
}

/// The gate that does nothing.
#[derive(Clone, Copy, Debug)]
pub struct Open;

impl Gate for Open {
    fn before(&self, _job: &Job) {}

    /// Whether a job reads tables of many rows, or answers many statements. An INSERT and a SET read no table.
    fn takes_long(&self, job: &Job) -> bool {
        match job.work() {
            Work::One(single) => match single.statement() {
                Statement::Insert { .. } | Statement::Set { .. } => false,
                _ => reads_many_rows(job),
            },
            Work::Joint(asked) => asked.len() > FEW_STATEMENTS || reads_many_rows(job),
        }
    }
}

/// Whether the tables that a job uses have many rows in all.
fn reads_many_rows(job: &Job) -> bool {
    let mut rows: usize = 0;
    for numbered in job.tables() {
        rows = rows.saturating_add(numbered.table().len());
    }
    rows > FEW_ROWS
}
