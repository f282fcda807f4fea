//! Which statements members of joint answers may be.
ghost use Rattle.std.specs.Prelude.{◌≡◌, ◌&&◌, is_some};
ghost use Rattle.std.specs.List.{list_any};
ghost use Rattle.ent_history.specs.Account.{accounts_from, commit_number};
ghost use Rattle.ent_history.specs.Joint.{is_entangled_one, is_statement_of};
ghost use Rattle.ent_semantics.specs.Serial.{is_entangled, numbered};

use crate::journal::commit_number;
use ent_history::Told;
use ent_semantics::{Member, element};
use ent_tree::{Script, Statement};

/// Whether a statement is entangled.
pub(crate) fn is_entangled(statement: &Statement) -> bool
    ensures { result ≡ is_entangled statement.now }
{
    matches!(statement, Statement::Entangled(_))
}

/// Whether the statement of a place, counted from 1, is there and is entangled.
fn is_entangled_at(statements: &[Statement], place: u64) -> bool
    ensures { result ≡ is_entangled_one (numbered statements.now place) }
{
    match element(statements, place) {
        Some(statement) => is_entangled(statement),
        None => false,
    }
}

/// Whether a transaction has committed, and its statement of a place is entangled.
fn has_entangled(script: &Script, told: &Told, place: u64) -> bool
    ensures { result ≡ (is_some (commit_number told.now.fate)
        && is_entangled_one (numbered script.now.statements place)) }
{
    commit_number(told).is_some() && is_entangled_at(script.statements.as_slice(), place)
}

/// Whether a member is an entangled statement of a transaction that has committed.
pub(crate) fn is_entangled_statement(
    scripts: &[Script],
    transactions: &[Told],
    member: &Member,
) -> bool
    ensures { result ≡ list_any (is_statement_of member.now) (accounts_from 1 scripts.now transactions.now) }
{
    let all = scripts.len().min(transactions.len());
    if member.tx == 0 || member.tx > all as u64 {
        return false;
    }
    let index = (member.tx - 1) as usize;
    has_entangled(&scripts[index], &transactions[index], member.place)
}
