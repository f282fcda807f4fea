//! The written variables of members' statements.
ghost use Rattle.std.specs.Prelude.{◌≡◌, IfOk};
ghost use Rattle.std.specs.Option.{option_copied};
ghost use Rattle.ent_semantics.specs.Serial.{numbered};
ghost use Rattle.ent_book.specs.Report2.{member_variables, script_statement};

use crate::written::written_variables;
use ent_semantics::{Member, element};
use ent_tree::{Script, Statement};
use ent_value::Name;
use std::alloc::{AllocError, Global};

/// The statement of a member.
fn statement_of<'a>(scripts: &'a [Script], member: &Member) -> Option<&'a Statement>
    ensures { option_copied result ≡ script_statement member.now.place (numbered scripts.now member.now.tx) }
{
    let script = element(scripts, member.tx)?;
    element(script.statements.as_slice(), member.place)
}

/// The written variables of a member's statement, none where it isn't entangled.
pub(crate) fn member_variables(
    alloc: Global,
    scripts: &[Script],
    member: &Member,
) -> Result<Vec<Name>, AllocError>
    ensures { IfOk result (λ names. names.items ≡ member_variables scripts.now member.now) }
{
    match statement_of(scripts, member) {
        Some(Statement::Entangled(entangled)) => written_variables(alloc, entangled),
        _ => Ok(Vec::new(alloc)),
    }
}
