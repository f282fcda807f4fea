//! Uses put together: each once, by table.
ghost use Rattle.std.specs.Prelude.{◌≡◌, ◌<◌, IsTrue, IfOk, OnOk, nat_lt, if◌then◌else◌};
ghost use Rattle.std.specs.List.{list_any};
ghost use Rattle.ent_protocol.specs.Begin.{same_use, use_rank, with_uses};
ghost use Rattle.ent_protocol.specs.State.{inserted};
ghost use Rattle.ent_members.specs.Order.{place_in};

use crate::table_use::Use;
use ent_lock::Mode;
use std::alloc::{AllocError, Global};

fn is_same(one: Use, other: Use) -> bool
    ensures { result ≡ same_use one other }
{
    one.table() == other.table() && one.mode() == other.mode()
}

fn is_held(uses: &[Use], own: Use) -> bool
    ensures { result ≡ list_any (same_use own) uses.now }
{
    uses.iter().any(|other| is_same(own, *other))
}

/// Uses come by table, of one table the shared one first.
fn is_before(one: Use, other: Use) -> bool
    ensures { result ≡ nat_lt (use_rank one) (use_rank other) }
{
    one.table() < other.table()
        || one.table() == other.table()
            && one.mode() == Mode::Shared
            && other.mode() == Mode::Exclusive
}

/// The index of the first use behind one, or else the length.
fn place_for(uses: &[Use], own: Use) -> usize
    ensures { result ≡ place_in use_rank uses.now (use_rank own) }
{
    for (i, other) in uses.iter().enumerate() {
        if is_before(own, *other) {
            return i;
        }
    }
    uses.len()
}

/// Adds a use, where it isn't there.
fn add_use(uses: &mut Vec<Use>, own: Use) -> Result<(), AllocError>
    ensures { OnOk result (uses.new.items ≡ (if list_any (same_use own) uses.old.items then uses.old.items
        else inserted use_rank own uses.old.items)) }
{
    if is_held(uses.as_slice(), own) {
        return Ok(());
    }
    let at = place_for(uses.as_slice(), own);
    uses.insert(at, own)?;
    Ok(())
}

/// The uses that are held, and those that are asked for, each once.
pub fn with_uses(alloc: Global, held: &[Use], asked: &[Use]) -> Result<Vec<Use>, AllocError>
    ensures { IfOk result (λ uses. uses.items ≡ with_uses asked.now held.now) }
{
    let mut uses = Vec::from_slice(alloc, held)?;
    for own in asked {
        add_use(&mut uses, *own)?;
    }
    Ok(uses)
}
