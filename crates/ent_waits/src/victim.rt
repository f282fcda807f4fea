//! The group that is rolled back for a deadlock.
ghost use Rattle.std.specs.Prelude.{IfSome, IsNone};
ghost use Rattle.ent_protocol.specs.State.{State};
ghost use Rattle.ent_protocol.specs.Waits.{NoDeadlock};
ghost use Rattle.ent_waits.specs.Victim.{IsVictim};
ghost use Rattle.ent_waits.specs.Waits.{state_with};

use crate::cycles::deadlock;
use ent_group::{Members, Tx};
use ent_job::Job;
use ent_members::SubmittedScript;
use ent_run::Run;

/// A deadlock, and the label of the group of its first member, which is rolled back for it.
#[derive(Debug, Drop)]
pub struct Victim {
    pub cycle: Members,
    pub group: Tx,
}

/// The deadlock that is broken, as [`deadlock`] finds it, and the group that is rolled back for it. It takes no memory.
pub fn victim_of(run: &Run, submitted: &[SubmittedScript], lent: &[Job]) -> Option<Victim>
    ensures found { (s : State) → IfSome result (IsVictim (state_with run.now submitted.now lent.now s)) }
    ensures none { (s : State) → IsNone result → NoDeadlock (state_with run.now submitted.now lent.now s) }
{
    let cycle = deadlock(run, submitted, lent)?;
    let first = cycle.as_slice()[0];
    match run.active_member(first) {
        Some(member) => {
            let group = member.group();
            Some(Victim { cycle, group })
        }
        None => None,
    }
}
