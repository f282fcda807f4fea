//! The uses of tables that posted statements ask for together.
ghost use Rattle.std.specs.Prelude.{◌≡◌, IfOk};
ghost use Rattle.ent_protocol.specs.PoolEvents.{joint_uses};

use ent_match::Posted;
use ent_members::{Use, entangled_uses, with_uses};
use std::alloc::{AllocError, Global};

/// The uses that posted statements ask for, by table, each once.
pub fn joint_uses(alloc: Global, asked: &[Posted]) -> Result<Vec<Use>, AllocError>
    ensures { IfOk result (λ uses. uses.items ≡ joint_uses asked.now) }
{
    let mut uses = Vec::new(alloc);
    for query in asked {
        let own = entangled_uses(query.statement());
        uses = with_uses(alloc, uses.as_slice(), own.as_slice())?;
    }
    Ok(uses)
}
