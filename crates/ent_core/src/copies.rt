//! Copies of answers.
ghost use Rattle.std.specs.Prelude.{◌≡◌, IfOk};

use ent_semantics::{Answer, Fact};
use ent_tree::Duplicate;
use ent_value::Sequence;
use std::alloc::{AllocError, Global};

fn fact_copy(alloc: Global, fact: &Fact) -> Result<Fact, AllocError>
    ensures { IfOk result (λ copy. copy ≡ fact.now) }
{
    let relation = fact.relation.copy(alloc)?;
    let values = fact.values.copy(alloc)?;
    Ok(Fact { relation, values })
}

fn facts_copy(alloc: Global, facts: &[Fact]) -> Result<Sequence<Fact>, AllocError>
    ensures { IfOk result (λ copies. copies ≡ facts.now) }
{
    let mut copies = Vec::with_capacity(alloc, facts.len())?;
    for fact in facts {
        copies.push(fact_copy(alloc, fact)?)?;
    }
    Ok(Sequence::from_vec(copies))
}

fn answer_copy(alloc: Global, answer: &Answer) -> Result<Answer, AllocError>
    ensures { IfOk result (λ copy. copy ≡ answer.now) }
{
    match answer {
        Answer::Count(count) => Ok(Answer::Count(*count)),
        Answer::Value(value) => Ok(Answer::Value(value.copy(alloc)?)),
        Answer::Rows(rows) => Ok(Answer::Rows(rows.copy(alloc)?)),
        Answer::Heads(heads) => Ok(Answer::Heads(facts_copy(alloc, heads.as_slice())?)),
    }
}

/// The same answers, in their order.
pub fn answers_copy(alloc: Global, answers: &[Answer]) -> Result<Sequence<Answer>, AllocError>
    ensures { IfOk result (λ copies. copies ≡ answers.now) }
{
    let mut copies = Vec::with_capacity(alloc, answers.len())?;
    for answer in answers {
        copies.push(answer_copy(alloc, answer)?)?;
    }
    Ok(Sequence::from_vec(copies))
}
