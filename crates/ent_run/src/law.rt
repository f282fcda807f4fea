//! Laws of members. Nothing here has a body; what holds is in the contracts.
ghost use Rattle.std.specs.Prelude.{◌↔◌, ℕ, Contains};
ghost use Rattle.ent_protocol.specs.Member.{next_of};
ghost use Rattle.ent_protocol.specs.State.{State, Member};
ghost use Rattle.ent_protocol.specs.Waits.{next_uses, waits_of};
ghost use Rattle.ent_run.specs.Waits.{pairs_of};

/// A member waits for those whom [`Run::awaits`](crate::Run::awaits) tells of the uses that its next statement asks
/// for, and for nobody else.
pub fn awaited_members_are_waited_for()
    ensures { (s : State) (asker : Member) (pair : ℕ × ℕ)
        → Contains (waits_of s asker) pair ↔ Contains (pairs_of s asker (next_uses (next_of s asker))) pair }
{}
