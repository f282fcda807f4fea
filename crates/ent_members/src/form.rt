//! The next statement of a member, before it is closed.
ghost use Rattle.std.specs.Prelude.{◌≡◌, [], IfSome, IsNone};
ghost use Rattle.std.specs.Option.{option_copied};
ghost use Rattle.ent_semantics.specs.Serial.{numbered};
ghost use Rattle.ent_protocol.specs.Member.{next_in};
ghost use Rattle.ent_protocol.specs.Uses.{statement_uses};
ghost use Rattle.ent_protocol.specs.Waits.{next_uses};
ghost use Rattle.ent_members.specs.Form.{next_form};

use crate::numbered::script_of;
use crate::submitted::SubmittedScript;
use crate::{RunMember, uses_are_kept_by_closing};
use ent_semantics::{Known, Statement, element};

/// The statement that a member is at, before it is closed; none where it is at the end of its script, or where no
/// script has its number. Once closed it asks for the same uses; where there is none, nothing is asked for. It takes
/// no memory.
pub fn next_form<'a>(
    submitted: &'a [SubmittedScript],
    member: &RunMember,
) -> Option<&'a Statement<Known>>
    ensures form { option_copied result ≡ next_form (numbered submitted.now member.now.tx) member.now }
    ensures uses { IfSome result (λ form.
        next_uses (next_in (numbered submitted.now member.now.tx) member.now) ≡ statement_uses form.now) }
    ensures nothing { IsNone result → next_uses (next_in (numbered submitted.now member.now.tx) member.now) ≡ [] }
{
    uses_are_kept_by_closing();
    match script_of(submitted, member.tx()) {
        Some(own) => element(own.form(), member.place() as u64),
        None => None,
    }
}
