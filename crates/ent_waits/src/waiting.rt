//! Which members wait.
ghost use Rattle.std.specs.Prelude.{◌≡◌, not, ◌&&◌};
ghost use Rattle.std.specs.List.{list_any};
ghost use Rattle.ent_protocol.specs.Member.{is_single_of};

use ent_job::{Job, is_lent};
use ent_members::RunMember;

/// Whether a member is neither posted nor has a job out.
pub(crate) fn is_waiting(lent: &[Job], member: &RunMember) -> bool
    ensures { result ≡ (not member.now.posted && not (list_any (is_single_of member.now.tx) lent.now)) }
{
    !member.is_posted() && !is_lent(lent, member.tx())
}
