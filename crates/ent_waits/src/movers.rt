//! Who would move.
ghost use Rattle.std.specs.Prelude.{◌≡◌, ◌↔◌, IfOk, IsTrue, false};
ghost use Rattle.ent_value.specs.declared.value.Value.{Value};
ghost use Rattle.ent_lock.specs.Use.{IsLeastIfAny};
ghost use Rattle.ent_semantics.specs.declared.entangled.Entangled.{Entangled};
ghost use Rattle.ent_semantics.specs.Pool.{IsSafe};
ghost use Rattle.ent_waits.specs.Pooled.{IsPoolOf};
ghost use Rattle.ent_protocol.specs.Begin.{pool_with};
ghost use Rattle.ent_protocol.specs.Member.{Asks, next_of, pool as pool_of};
ghost use Rattle.ent_protocol.specs.Quiet.{CanMove};
ghost use Rattle.ent_protocol.specs.State.{State};
ghost use Rattle.ent_match.specs.Place.{HasNoneOf};
ghost use Rattle.ent_waits.specs.Waits.{state_with};
ghost use Rattle.ent_waits.specs.Movers.{IsMover};

use crate::free::{is_free, is_posting};
use crate::post_fault;
use ent_group::Tx;
use ent_job::Job;
use ent_lock::lesser;
use ent_match::{Pool, Posted};
use ent_members::{Next, RunMember, SubmittedScript, next_of};
use ent_run::Run;
use std::alloc::{AllocError, Global};

/// Whether the pool stays safe with a member's entangled statement.
fn stays_safe(
    alloc: Global,
    submitted: &[SubmittedScript],
    pool: &Pool,
    member: &RunMember,
) -> Result<bool, AllocError>
    requires { HasNoneOf pool.now member.now.tx }
    ensures { IfOk result (λ safe. (s : State) (statement : Entangled Value)
        → s.submitted ≡ submitted.now
        → pool_of s ≡ pool.now
        → next_of s member.now ≡ Asks statement
        → IsTrue safe ↔ IsSafe (pool_with s member.now statement)) }
{
    let _posted = pool.members();
    match next_of(alloc, submitted, member)? {
        Next::Asks(statement) => {
            let place = member.place() as u64;
            let query = Posted::new(member.tx(), member.attempt(), place, statement);
            let fault = post_fault(alloc, pool, &query)?;
            Ok(fault.is_none())
        }
        _ => Ok(false),
    }
}

/// The number of a member, where it would move.
fn mover_of(
    alloc: Global,
    run: &Run,
    submitted: &[SubmittedScript],
    lent: &[Job],
    pool: &Pool,
    member: &RunMember,
) -> Result<Option<Tx>, AllocError>
    requires { member.now.posted ≡ false → HasNoneOf pool.now member.now.tx }
    ensures { IfOk result (λ mover. (s : State)
        → pool_of (state_with run.now submitted.now lent.now s) ≡ pool.now
        → IsLeastIfAny (IsMover (state_with run.now submitted.now lent.now s) member.now) mover) }
{
    if !is_free(run, submitted, lent, member) {
        return Ok(None);
    }
    if !is_posting(submitted, member) {
        return Ok(Some(member.tx()));
    }
    if stays_safe(alloc, submitted, pool, member)? {
        Ok(Some(member.tx()))
    } else {
        Ok(None)
    }
}

/// The least member that would move.
pub(crate) fn least_mover(
    alloc: Global,
    run: &Run,
    submitted: &[SubmittedScript],
    lent: &[Job],
    pool: &Pool,
) -> Result<Option<Tx>, AllocError>
    requires { IsPoolOf submitted.now run.now.active pool.now }
    ensures { IfOk result (λ least. (s : State)
        → IsLeastIfAny (CanMove (state_with run.now submitted.now lent.now s)) least) }
{
    let mut least = None;
    for place in 0..run.active_len() {
        let member = run.at(place);
        let own = mover_of(alloc, run, submitted, lent, pool, &member)?;
        least = lesser(least, own);
    }
    Ok(least)
}
