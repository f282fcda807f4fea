//! Scripts for one run.
ghost use Rattle.std.specs.Prelude.{◌≡◌, IfOk};
ghost use Rattle.ent_epoch.specs.Epoch.{for_one_run};

use ent_tree::{Duplicate, Runs, Script};
use std::alloc::{AllocError, Global};

/// A copy of a script, but that it asks for one run.
pub fn for_one_run(alloc: Global, script: &Script) -> Result<Script, AllocError>
    ensures { IfOk result (λ copy. copy ≡ for_one_run script.now) }
{
    Ok(Script {
        within: Runs::new(1),
        statements: script.statements.copy(alloc)?,
        end: script.end,
    })
}
