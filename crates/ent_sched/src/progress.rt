//! Which replies tell of progress.
ghost use Rattle.std.specs.Prelude.{◌≡◌};
ghost use Rattle.ent_protocol_laws.specs.Progress.{is_progress};
ghost use Rattle.ent_core.specs.Reply.{reply_seen};

use ent_core::Reply;

/// Whether a reply tells of a step of progress.
fn tells_of_progress(reply: &Reply) -> bool
    ensures { result ≡ is_progress (reply_seen reply.now) }
{
    match reply {
        Reply::Posted
        | Reply::Prepared
        | Reply::Committed { .. }
        | Reply::RolledBack(_)
        | Reply::Stepped(_)
        | Reply::Failed(..)
        | Reply::Answered
        | Reply::NoChoice
        | Reply::Broken(..) => true,
        _ => false,
    }
}

/// The same of a reply that isn't wanted any more.
pub(crate) fn told_of_progress(reply: Reply) -> bool
    ensures { result ≡ is_progress (reply_seen reply) }
{
    let told = tells_of_progress(&reply);
    drop(reply);
    told
}
