//! The line above a script.
ghost use Rattle.std.specs.Prelude.{◌≡◌};
ghost use Rattle.ent_value.specs.Refusal.{Gives};
ghost use Rattle.ent_history.specs.ScriptLines.{script_at};

use crate::count::placed;
use ent_text::{LineFault, behind};
use ent_value::Refusal;

/// The line above a script: the script's number, and how many lines follow.
#[tactic(auto, unfolding(crate::specs::ScriptLines::script_at))]
pub fn script(line: &[u8]) -> Result<(u64, u64), Refusal<LineFault>>
    ensures { Gives (λ told. told) result (script_at line.now) }
{
    let rest = behind(b"script ", line)?;
    placed(b" ", rest)
}
