//! What jobs come to.
ghost use Rattle.std.specs.Prelude.{◌≡◌, IfOk};
ghost use Rattle.ent_eval.specs.Result.{answer_of, outcome_seen};

use ent_ordinary::Outcome;
use ent_semantics::Answer;
use ent_tree::Duplicate;
use ent_value::{Sequence, Value};
use std::alloc::{AllocError, Global};

/// What a job comes to.
#[derive(Drop)]
pub enum JobOutcome {
    /// What the statement of one transaction comes to.
    One(Outcome),
    /// The least coordinating choice of posted statements, a value for each written variable of each of them; none
    /// where there is none.
    Choice(Option<Sequence<Sequence<Value>>>),
}

impl JobOutcome {
    pub fn copy(&self, alloc: Global) -> Result<Self, AllocError>
        ensures { IfOk result (λ copy. copy ≡ self.now) }
    {
        match self {
            JobOutcome::One(outcome) => Ok(JobOutcome::One(outcome.copy(alloc)?)),
            JobOutcome::Choice(groundings) => Ok(JobOutcome::Choice(groundings.copy(alloc)?)),
        }
    }

    /// What the statement answers, moved out; None where it can't be carried out, and where there are several.
    pub fn into_answer(self) -> Option<Answer>
        ensures { result ≡ answer_of (outcome_seen self) }
    {
        match self {
            JobOutcome::One(Outcome::Rows(rows)) => Some(Answer::Rows(rows)),
            JobOutcome::One(
                Outcome::Changed {
                    count,
                    delta: _delta,
                },
            ) => Some(Answer::Count(count)),
            JobOutcome::One(Outcome::Value(value)) => Some(Answer::Value(value)),
            JobOutcome::One(Outcome::Fault(_failure)) => None,
            JobOutcome::Choice(_groundings) => None,
        }
    }
}
