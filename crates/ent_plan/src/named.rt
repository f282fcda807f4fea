//! The statements of some transactions.
ghost use Rattle.std.specs.Prelude.{◌≡◌, IfOk};
ghost use Rattle.ent_plan.specs.Plan.{is_named, named};

use ent_group::Tx;
use ent_match::Posted;
use std::alloc::{AllocError, Global};

/// Whether a statement is of one of some transactions.
fn is_named(txs: &[Tx], member: &Posted) -> bool
    ensures { result ≡ is_named txs.now member.now }
{
    txs.contains(&member.tx())
}

/// The statements of some transactions, which are shared.
pub(crate) fn shared_of(
    alloc: Global,
    members: &[Posted],
    txs: &[Tx],
) -> Result<Vec<Posted>, AllocError>
    ensures { IfOk result (λ shared. shared.items ≡ named members.now txs.now) }
{
    let mut shared = Vec::new(alloc);
    for member in members {
        if is_named(txs, member) {
            shared.push(member.shared()?)?;
        }
    }
    Ok(shared)
}
