//! What a member has itself.
ghost use Rattle.std.specs.Prelude.{◌≡◌, List, OnOk, OnErr, length};
ghost use Rattle.ent_value.specs.declared.value.Value.{Value as Bound};
ghost use Rattle.ent_semantics.specs.Database.{Name as Variable};
ghost use Rattle.ent_semantics.specs.declared.answer.Answer.{Answer as Answered};
ghost use Rattle.ent_protocol.specs.Finish.{stepped};
ghost use Rattle.ent_protocol.specs.Run.{fresh};
ghost use Rattle.ent_protocol.specs.State.{Member as Before};
ghost use Rattle.ent_members.specs.Changes.{posted, stepping};

use crate::entrant::Entrant;
use ent_closing::Environment;
use ent_group::Tx;
use ent_semantics::Answer;
use ent_value::{Name, Value};
use std::alloc::{AllocError, Global};
use std::marker::Model;

/// What a member of the present run has itself: its runs, what its host variables are bound to, and its answers. Its
/// place is the number of its next statement, from 1. Contracts see it as a member that holds nothing, in a group of
/// its own; a [`RunMember`](crate::RunMember) is the same with the locks that a lock table shows for it and its group's
/// label.
#[derive(Drop)]
pub struct Progress {
    tx: Tx,
    attempt: u64,
    environment: Environment,
    /// One for each statement before its next one.
    answers: Vec<Answer>,
    is_posted: bool,
}

impl Model for Progress {
    ghost use Rattle.std.specs.Prelude.{[], suc, length};
    ghost use Rattle.ent_protocol.specs.State.{Member as Seen};

    ghost Value = { Seen };

    ghost view = { λ p. record {
      tx = p.tx;
      attempt = p.attempt;
      group = p.tx;
      place = suc (length p.answers.items);
      bound = p.environment;
      answers = p.answers.items;
      uses = [];
      posted = p.is_posted;
    } };
}

impl Progress {
    /// A member of a run that starts, in a group of its own, at its first statement. It takes no memory.
    pub fn fresh(alloc: Global, entrant: Entrant) -> Self
        ensures { result ≡ fresh entrant }
    {
        Progress {
            tx: entrant.tx(),
            attempt: entrant.runs() + 1,
            environment: Environment::new(alloc),
            answers: Vec::new(alloc),
            is_posted: false,
        }
    }

    pub fn tx(&self) -> Tx
        ensures { result ≡ self.now.tx }
    {
        self.tx
    }

    /// The runs that it took part in, this one counted.
    pub fn attempt(&self) -> u64
        ensures { result ≡ self.now.attempt }
    {
        self.attempt
    }

    /// The number of its next statement, from 1.
    pub fn place(&self) -> usize
        ensures { result ≡ self.now.place }
    {
        self.answers.len() + 1
    }

    /// What its host variables are bound to.
    pub fn environment(&self) -> &Environment
        ensures { result.now ≡ self.now.bound }
    {
        &self.environment
    }

    /// The answers of its statements so far.
    pub fn answers(&self) -> &[Answer]
        ensures { result.now ≡ self.now.answers }
    {
        self.answers.as_slice()
    }

    /// The answers, moved and not copied.
    pub fn into_answers(self) -> Vec<Answer>
        ensures { result.items ≡ self.answers }
    {
        let Progress { answers, .. } = self;
        answers
    }

    /// Whether its next statement is in the pool.
    pub fn is_posted(&self) -> bool
        ensures { result ≡ self.now.posted }
    {
        self.is_posted
    }

    /// Its next statement is in the pool.
    pub fn post(&mut self)
        ensures { self.new ≡ posted self.old }
    {
        self.is_posted = true;
    }

    /// It takes the answer of its statement, and is at the next one.
    pub fn step(&mut self, answer: Answer) -> Result<(), AllocError>
        ensures ok { OnOk result (self.new ≡ stepped answer self.old) }
        ensures err { OnErr result (self.new ≡ self.old) }
    {
        self.answers.push(answer)?;
        self.is_posted = false;
        Ok(())
    }

    /// It takes the answer of its statement, which binds host variables, and is at the next one.
    pub fn step_bound(
        &mut self,
        answer: Answer,
        bound: Vec<(Name, Value)>,
    ) -> Result<(), AllocError>
        ensures ok { OnOk result (self.new ≡ stepping answer bound.items self.old) }
        ensures err { OnErr result (self.new ≡ self.old) }
    {
        self.answers.reserve(1)?;
        self.environment.bind_all(bound)?;
        self.answers.push_reserved(answer);
        self.is_posted = false;
        Ok(())
    }

    /// It is as before it took its last answer: it had so many bindings, and its statement was posted or not.
    pub fn step_back(&mut self, bindings: usize, was_posted: bool)
        ensures back { (answer : Answered) (bound : List (Variable × Bound)) (before : Before)
            → self.old ≡ stepping answer bound before → length before.bound ≡ bindings
            → before.posted ≡ was_posted → self.new ≡ before }
        ensures tx { self.new.tx ≡ self.old.tx }
    {
        self.answers.pop();
        self.environment.truncate(bindings);
        self.is_posted = was_posted;
    }
}
