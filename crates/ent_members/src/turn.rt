//! What a member that is ready begins next.
ghost use Rattle.std.specs.Prelude.{◌≡◌};
ghost use Rattle.ent_semantics.specs.Serial.{numbered};
ghost use Rattle.ent_protocol.specs.Lookup as lookups;
ghost use Rattle.ent_protocol.specs.Member.{next_in};
ghost use Rattle.ent_members.specs.Turn.{turn_seen};

use crate::RunMember;
use crate::numbered::script_of;
use crate::submitted::SubmittedScript;
use ent_semantics::element;
use ent_tree::End;

/// What a member that is ready begins next.
#[derive(Clone, Copy, Debug, PartialEq, Eq)]
pub enum Turn {
    Statement,
    Commit,
    Rollback,
}

/// What a member begins next. It takes no memory.
pub fn turn_of(submitted: &[SubmittedScript], member: &RunMember) -> Turn
    ensures { turn_seen result ≡ lookups.turn_of (next_in (numbered submitted.now member.now.tx) member.now) }
{
    match script_of(submitted, member.tx()) {
        Some(own) => match element(own.form(), member.place() as u64) {
            Some(_) => Turn::Statement,
            None => match own.end() {
                End::Commit => Turn::Commit,
                End::Rollback => Turn::Rollback,
            },
        },
        None => Turn::Rollback,
    }
}
