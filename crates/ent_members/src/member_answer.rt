//! What one member gets of a joint answer.
ghost use Rattle.std.specs.Prelude.{◌≡◌, IfOk};
ghost use Rattle.ent_semantics.specs.Form.{atom_fact, form_bound, form_heads, term_worth};
ghost use Rattle.ent_members.specs.Answered.{member_answer};

use ent_group::Tx;
use ent_semantics::{Answer, Atom, Entangled, Fact, Term};
use ent_tree::Duplicate;
use ent_value::{Name, Row, Sequence, Value};
use std::alloc::{AllocError, Global};
use std::marker::Model;

/// What one member gets of a joint answer: its heads, and what they bind.
#[derive(Drop)]
pub struct MemberAnswer {
    tx: Tx,
    answer: Answer,
    bound: Vec<(Name, Value)>,
}

impl Model for MemberAnswer {
    ghost use Rattle.ent_members.specs.Answered.{MemberAnswer as Seen};

    ghost Value = { Seen };

    ghost view = { λ a. record { tx = a.tx; answer = a.answer; bound = a.bound.items } };
}

impl MemberAnswer {
    /// What the member of a number gets whose statement was posted, under a grounding of the statement.
    pub fn of(
        alloc: Global,
        tx: Tx,
        statement: &Entangled<Value>,
        grounding: &[Value],
    ) -> Result<Self, AllocError>
        ensures { IfOk result (λ own. own ≡ member_answer tx statement.now grounding.now) }
    {
        let heads = heads(alloc, statement, grounding)?;
        let bound = bindings(alloc, statement, grounding)?;
        Ok(MemberAnswer {
            tx,
            answer: Answer::Heads(heads),
            bound,
        })
    }

    /// The member's number.
    pub fn tx(&self) -> Tx
        ensures { result ≡ self.now.tx }
    {
        self.tx
    }

    /// The answer, and what it binds, moved and not copied.
    pub fn into_parts(self) -> (Answer, Vec<(Name, Value)>)
        ensures answer { result.0 ≡ self.answer }
        ensures bound { result.1.items ≡ self.bound }
    {
        let MemberAnswer { answer, bound, .. } = self;
        (answer, bound)
    }
}

/// What a term is worth under a grounding.
fn value_of(alloc: Global, term: &Term<Value>, grounding: &[Value]) -> Result<Value, AllocError>
    ensures { IfOk result (λ value. value ≡ term_worth (λ own. own) grounding.now term.now) }
{
    match term {
        Term::Known(value) => value.copy(alloc),
        Term::Variable(number) => match grounding.get(*number) {
            Some(value) => value.copy(alloc),
            // A grounding has a value for each written variable.
            None => Ok(Value::Int(0)),
        },
    }
}

/// The fact that an atom is under a grounding.
fn fact_of(alloc: Global, atom: &Atom<Value>, grounding: &[Value]) -> Result<Fact, AllocError>
    ensures { IfOk result (λ fact. fact ≡ atom_fact (λ own. own) grounding.now atom.now) }
{
    let relation = atom.relation.copy(alloc)?;
    let mut values = Vec::with_capacity(alloc, atom.terms.len())?;
    for term in atom.terms.as_slice() {
        values.push(value_of(alloc, term, grounding)?)?;
    }
    Ok(Fact {
        relation,
        values: Row::from_vec(values),
    })
}

/// The heads of a statement under a grounding.
fn heads(
    alloc: Global,
    statement: &Entangled<Value>,
    grounding: &[Value],
) -> Result<Sequence<Fact>, AllocError>
    ensures { IfOk result (λ heads. heads ≡ form_heads (λ own. own) statement.now grounding.now) }
{
    let mut heads = Vec::with_capacity(alloc, statement.heads.len())?;
    for atom in statement.heads.as_slice() {
        heads.push(fact_of(alloc, atom, grounding)?)?;
    }
    Ok(Sequence::from_vec(heads))
}

/// What a statement binds after its answer under a grounding.
fn bindings(
    alloc: Global,
    statement: &Entangled<Value>,
    grounding: &[Value],
) -> Result<Vec<(Name, Value)>, AllocError>
    ensures { IfOk result (λ bound. bound.items ≡ form_bound (λ own. own) statement.now grounding.now) }
{
    let mut bound = Vec::with_capacity(alloc, statement.binds.len())?;
    for bind in statement.binds.as_slice() {
        let variable = bind.variable.copy(alloc)?;
        let value = value_of(alloc, &bind.term, grounding)?;
        bound.push((variable, value))?;
    }
    Ok(bound)
}
