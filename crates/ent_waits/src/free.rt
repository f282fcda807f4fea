//! Which members nobody blocks.
ghost use Rattle.std.specs.Prelude.{◌≡◌, ◌↔◌, IsTrue};
ghost use Rattle.ent_semantics.specs.Serial.{numbered};
ghost use Rattle.ent_protocol.specs.Member.{next_in};
ghost use Rattle.ent_protocol.specs.State.{State};
ghost use Rattle.ent_protocol.specs.Uses.{blocker};
ghost use Rattle.ent_protocol.specs.Waits.{next_uses};
ghost use Rattle.ent_run.specs.Run.{with_run};
ghost use Rattle.ent_waits.specs.Free.{IsFree, is_posting};
ghost use Rattle.ent_waits.specs.Waits.{state_with};

use crate::waiting::is_waiting;
use ent_group::Tx;
use ent_job::Job;
use ent_members::{RunMember, SubmittedScript, next_form};
use ent_run::Run;
use ent_semantics::Statement;

/// Whether a member that isn't prepared is at its turn, and nobody blocks what it does next. It takes no memory.
pub(crate) fn is_free(
    run: &Run,
    submitted: &[SubmittedScript],
    lent: &[Job],
    member: &RunMember,
) -> bool
    ensures { (s : State) → IsTrue result ↔ IsFree (state_with run.now submitted.now lent.now s) member.now }
{
    is_waiting(lent, member) && blocker_of(run, submitted, member).is_none()
}

/// The least member that blocks what a member does next. It takes no memory.
pub fn blocker_of(run: &Run, submitted: &[SubmittedScript], member: &RunMember) -> Option<Tx>
    ensures { (s : State) → result ≡ blocker (with_run run.now s) member.now
        (next_uses (next_in (numbered submitted.now member.now.tx) member.now)) }
{
    match next_form(submitted, member) {
        Some(form) => run.statement_blocker(member, form),
        None => None,
    }
}

/// Whether a member's next statement is an entangled one.
pub(crate) fn is_posting(submitted: &[SubmittedScript], member: &RunMember) -> bool
    ensures { result ≡ is_posting (next_in (numbered submitted.now member.now.tx) member.now) }
{
    match next_form(submitted, member) {
        Some(Statement::Entangled(_)) => true,
        _ => false,
    }
}
