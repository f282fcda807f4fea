//! What a member does next.
ghost use Rattle.std.specs.Prelude.{◌≡◌, Some, IfOk, IsOk};
ghost use Rattle.ent_semantics.specs.Serial.{numbered};
ghost use Rattle.ent_semantics.specs.Closing.{closed};
ghost use Rattle.ent_closing.specs.Environment.{environment_of};
ghost use Rattle.ent_protocol.specs.Member.{Commits, RollsBack, end_next, next_in, statement_next};
ghost use Rattle.ent_members.specs.Next.{next_seen};

use crate::RunMember;
use crate::numbered::script_of;
use crate::submitted::SubmittedScript;
use ent_closing::{Environment, closed};
use ent_semantics::{Entangled, Known, Statement, element};
use ent_tree::End;
use ent_value::Value;
use std::alloc::{AllocError, Global};
use std::sync::Arc;

/// What a member does next.
#[derive(Drop)]
pub enum Next {
    /// A statement, closed, that isn't entangled.
    Ordinary(Statement<Value>),
    /// An entangled statement, closed, which copies share.
    Asks(Arc<Entangled<Value>>),
    Commits,
    RollsBack,
}

/// A closed statement as what comes next.
fn statement_next(alloc: Global, statement: Statement<Value>) -> Result<Next, AllocError>
    ensures { IfOk result (λ next. next_seen next ≡ statement_next statement) }
{
    match statement {
        Statement::Entangled(entangled) => {
            let shared = Arc::new(alloc, entangled)?;
            Ok(Next::Asks(shared))
        }
        ordinary => Ok(Next::Ordinary(ordinary)),
    }
}

/// The statement at a place where a member stands that bound this, as what comes next.
fn form_next(
    alloc: Global,
    form: &Statement<Known>,
    environment: &Environment,
) -> Result<Next, AllocError>
    ensures { IfOk result (λ next.
        next_seen next ≡ statement_next (closed (environment_of environment.now) form.now)) }
{
    let statement = closed(alloc, form, environment)?;
    statement_next(alloc, statement)
}

/// The end of a script as what comes next.
fn end_next(end: End) -> Next
    ensures { next_seen result ≡ end_next end }
{
    match end {
        End::Commit => Next::Commits,
        End::Rollback => Next::RollsBack,
    }
}

/// What comes next in a member's script.
fn next_in(alloc: Global, own: &SubmittedScript, member: &RunMember) -> Result<Next, AllocError>
    ensures next { IfOk result (λ next. next_seen next ≡ next_in (Some own.now) member.now) }
    ensures commits { next_in (Some own.now) member.now ≡ Commits → IsOk result }
    ensures rolls_back { next_in (Some own.now) member.now ≡ RollsBack → IsOk result }
{
    match element(own.form(), member.place() as u64) {
        Some(form) => form_next(alloc, form, member.environment()),
        None => Ok(end_next(own.end())),
    }
}

/// What a member does next: its statement, closed under what it bound, or the end of its script. Where no script has
/// its number it rolls back. Only a statement takes memory.
pub fn next_of(
    alloc: Global,
    submitted: &[SubmittedScript],
    member: &RunMember,
) -> Result<Next, AllocError>
    ensures next { IfOk result (λ next.
        next_seen next ≡ next_in (numbered submitted.now member.now.tx) member.now) }
    ensures commits { next_in (numbered submitted.now member.now.tx) member.now ≡ Commits → IsOk result }
    ensures rolls_back { next_in (numbered submitted.now member.now.tx) member.now ≡ RollsBack → IsOk result }
{
    match script_of(submitted, member.tx()) {
        Some(own) => next_in(alloc, own, member),
        None => Ok(Next::RollsBack),
    }
}
