//! A whole input.
ghost use Rattle.std.specs.Prelude.{◌≡◌, ◌↔◌, ℕ, List, Ok, Err};
ghost use Rattle.ent_value.specs.Refusal.{Gives};
ghost use Rattle.ent_text.specs.Lexing.{tokens_of};
ghost use Rattle.ent_text.specs.declared.fault.TextFault.{TextFault};
ghost use Rattle.ent_text.specs.Grammar.{reads_all};
ghost use Rattle.ent_tree.specs.declared.script.Input.{Input};
ghost use Rattle.ent_sql.specs.declared.fault.SqlFault.{SqlFault};
ghost use Rattle.ent_sql.specs.Scripts.{input};
ghost use Rattle.ent_sql.specs.Reading.{reading};
ghost use Rattle.ent_sql.specs.Says.{Says};
ghost use Rattle.ent_sql.specs.FirstFault.{CantFollow, IsTooMuch};

use crate::fault::{SqlFault, fault_of};
use crate::list::many;
use ent_text::{GrammarFault, Tokens, fault_from, unexpected};
use ent_tree::{Input, Opening};
use ent_value::Refusal;
use std::alloc::Global;

/// What a text says, or its first fault: all faults of tokens come before those of the grammar, which are the first
/// token that can't follow what stands before it, or that begins a thing beyond a limit. What was read has no fault of
/// its tokens, so these are looked for only where reading stopped, and only in what stands there.
#[tactic(auto, unfolding(crate::specs::Reading::reading))]
pub fn parse_input(alloc: Global, text: &str) -> Result<Input, Refusal<SqlFault>>
    ensures { Gives (λ input. input) result (reading text.now) }
{
    match input_of(alloc, text.len(), &mut Tokens::of(text)) {
        Ok(input) => Ok(input),
        Err(Refusal::Memory) => Err(Refusal::Memory),
        Err(Refusal::Fault(fault)) => {
            let found = fault_of(fault);
            match fault_from(text, found.place()) {
                None => Err(Refusal::Fault(found)),
                Some(earlier) => Err(Refusal::Fault(SqlFault::Text(earlier))),
            }
        }
    }
}

/// An input is read from a text exactly where the text says it, and a text says one input at most. Each fault is
/// answered exactly where it is the first.
pub fn reading_is_exact()
    ensures input { (text : List ℕ) (input : Input) → (reading text ≡ Ok input) ↔ Says text input }
    ensures single { (text : List ℕ) (one other : Input) → Says text one → Says text other → one ≡ other }
    ensures token_fault { (text : List ℕ) (fault : TextFault)
        → (reading text ≡ Err (SqlFault.Text fault)) ↔ (tokens_of text ≡ Err fault) }
    ensures unexpected { (text : List ℕ) (place : ℕ)
        → (reading text ≡ Err (SqlFault.Unexpected place)) ↔ CantFollow text place }
    ensures too_many { (text : List ℕ) (place : ℕ)
        → (reading text ≡ Err (SqlFault.TooMany place)) ↔ IsTooMuch text place }
{}

/// What the tokens of a text of this length say.
#[tactic(auto, unfolding(crate::specs::Scripts::input))]
fn input_of(
    alloc: Global,
    end: usize,
    tokens: &mut Tokens<'_>,
) -> Result<Input, Refusal<GrammarFault>>
    ensures { Gives (λ input. input) result (reads_all input end tokens.old) }
{
    let tables = many(alloc, end, tokens)?;
    let rows = many(alloc, end, tokens)?;
    let scripts = many(alloc, end, tokens)?;
    if tokens.front().is_some() {
        return Err(unexpected(end, tokens));
    }
    Ok(Input {
        opening: Opening { tables, rows },
        scripts,
    })
}
