//! What a member's next statement asks for.
ghost use Rattle.std.specs.Prelude.{◌≡◌};
ghost use Rattle.ent_semantics.specs.Serial.{numbered};
ghost use Rattle.ent_protocol.specs.Member.{next_in};
ghost use Rattle.ent_protocol.specs.Waits.{next_uses};

use ent_members::{RunMember, SubmittedScript, Uses, next_form, statement_uses};

/// The uses that a member's next statement asks for; none where it is at the end of its script.
pub(crate) fn next_uses(submitted: &[SubmittedScript], member: &RunMember) -> Uses
    ensures { result ≡ next_uses (next_in (numbered submitted.now member.now.tx) member.now) }
{
    match next_form(submitted, member) {
        Some(form) => statement_uses(form),
        None => Uses::new(),
    }
}
