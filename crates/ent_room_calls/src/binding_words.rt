//! Faults of values that should be bound, in words.
ghost use Rattle.std.specs.Prelude.{◌≡◌, IfErr, IfOk, Some, slice_get};
ghost use Rattle.ent_room_calls.specs.Binding.{binding_line, binding_words, name_of};
ghost use Rattle.ent_room_calls.specs.declared.fault.RoomFault.TheVariants.{Memory};

use crate::fault::{RoomFault, variable_of};
use ent_bound::{BindingFault, BoundVariable};
use std::alloc::Global;
use std::fmt;

/// What is said of a fault behind the name of the host variable.
#[derive(Clone, Copy)]
struct BindingWords(BindingFault);

impl fmt::Display for BindingWords {
    ghost output = { λ words. Some (binding_words words.0) };

    fn fmt<W: fmt::Write>(&self, f: &mut fmt::Formatter<W>) -> fmt::Result {
        match self.0 {
            BindingFault::Value(_, _) => write!(f, " has a value that can't be bound"),
            BindingFault::Twice(_) => write!(f, " is bound twice"),
            BindingFault::SetByScript(_) => {
                write!(
                    f,
                    " is set by the script itself, so no value is bound to it"
                )
            }
            BindingFault::Unused(_) => {
                write!(f, " isn't used by the script, so no value is bound to it")
            }
        }
    }
}

/// The name of the variable at a place; nothing where there is none.
fn name_at(variables: &[BoundVariable], number: usize) -> &[u8]
    ensures { result.now ≡ name_of (slice_get variables.now number) }
{
    match variables.get(number) {
        Some(variable) => variable.name.as_bytes(),
        None => &[],
    }
}

/// A line, with its end, that names a host variable and says why no value is bound to it. The fault is one of these
/// variables.
pub fn binding_line(
    alloc: Global,
    variables: &[BoundVariable],
    fault: BindingFault,
) -> Result<Vec<u8>, RoomFault>
    ensures line { IfOk result (λ line. line.items ≡ binding_line variables.now fault) }
    ensures refused { IfErr result (λ fault. fault ≡ Memory) }
{
    let words = BindingWords(fault);
    let said = format!(in alloc; "{words}\n")?;
    let mut line = Vec::new(alloc);
    line.push(b'@')?;
    line.extend_from_slice(name_at(variables, variable_of(fault)))?;
    line.extend_from_slice(said.as_bytes())?;
    Ok(line)
}
