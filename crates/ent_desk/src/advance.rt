//! How far a session comes under the lock.
ghost use Rattle.std.specs.Prelude.{◌≡◌};
ghost use Rattle.ent_core.specs.Reply.{reply_seen};
ghost use Rattle.ent_desk.specs.Advance.{is_leaving, moved_unless};
ghost use Rattle.ent_protocol.specs.Play.{is_idle};

use ent_core::Reply;
use ent_stamp::{Naming, StampedJob};

/// How far a session comes under the lock, with a job that is lent.
#[derive(Drop)]
pub enum Advance<J> {
    /// A job is lent, which is to be done with no lock held.
    Lent(J),
    /// Something moved.
    Moved,
    /// Nothing can move until another's job comes back.
    Idle,
    /// Every transaction has its fate.
    Done,
}

/// Whether a reply refuses, or says that there is nothing to do.
fn is_idle(reply: &Reply) -> bool
    ensures { result ≡ is_idle (reply_seen reply.now) }
{
    match reply {
        Reply::Blocked(_)
        | Reply::HeldBack(_)
        | Reply::Nothing
        | Reply::NoCycle
        | Reply::Absent
        | Reply::NotNow
        | Reply::Stale(_)
        | Reply::Busy(_)
        | Reply::Full(_)
        | Reply::Faulty(..) => true,
        _ => false,
    }
}

/// Whether members leave the run: they have their fates, or wait for another one.
pub(crate) fn is_leaving(reply: &Reply) -> bool
    ensures { result ≡ is_leaving (reply_seen reply.now) }
{
    match reply {
        Reply::Committed { .. }
        | Reply::RolledBack(_)
        | Reply::Failed(..)
        | Reply::Broken(..)
        | Reply::Ended(_) => true,
        _ => false,
    }
}

/// That something moved, unless a reply refuses or says that there is nothing to do.
pub(crate) fn moved_unless_idle<L: Naming>(reply: &Reply) -> Option<Advance<StampedJob<L>>>
    ensures { result ≡ moved_unless (is_idle (reply_seen reply.now)) }
{
    if is_idle(reply) {
        None
    } else {
        Some(Advance::Moved)
    }
}
