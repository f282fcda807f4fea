//! One script alone.
ghost use Rattle.std.specs.Prelude.{◌≡◌};
ghost use Rattle.ent_value.specs.Refusal.{Gives};
ghost use Rattle.ent_text.specs.Grammar.{reads_all};
ghost use Rattle.ent_sql.specs.Scripts.{script};
ghost use Rattle.ent_sql.specs.Reading.{script_reading};

use crate::fault::{SqlFault, fault_of};
use crate::script::script_at;
use ent_text::{GrammarFault, Tokens, fault_from, unexpected};
use ent_tree::Script;
use ent_value::Refusal;
use std::alloc::Global;

/// The one script that a text says, with no declaration or row before it and nothing behind it; or the text's first
/// fault, as [`crate::parse_input`] has them. Places count from the start of this text.
#[tactic(auto, unfolding(crate::specs::Reading::script_reading))]
pub fn parse_script(alloc: Global, text: &str) -> Result<Script, Refusal<SqlFault>>
    ensures { Gives (λ script. script) result (script_reading text.now) }
{
    match script_of(alloc, text.len(), &mut Tokens::of(text)) {
        Ok(script) => Ok(script),
        Err(Refusal::Memory) => Err(Refusal::Memory),
        Err(Refusal::Fault(fault)) => {
            let found = fault_of(fault);
            match fault_from(text, found.place()) {
                None => Err(Refusal::Fault(found)),
                Some(earlier) => Err(Refusal::Fault(SqlFault::Text(earlier))),
            }
        }
    }
}

/// The script that the tokens of a text of this length say.
fn script_of(
    alloc: Global,
    end: usize,
    tokens: &mut Tokens<'_>,
) -> Result<Script, Refusal<GrammarFault>>
    ensures { Gives (λ script. script) result (reads_all script end tokens.old) }
{
    let script = script_at(alloc, end, tokens)?;
    if tokens.front().is_some() {
        return Err(unexpected(end, tokens));
    }
    Ok(script)
}
