//! How a ticket stands, in words.
ghost use Rattle.std.specs.Prelude.{◌≡◌, IfErr, IfOk, Some};
ghost use Rattle.ent_room_calls.specs.State.{ending_text, state_text};
ghost use Rattle.ent_room_calls.specs.declared.fault.RoomFault.TheVariants.{Memory};

use crate::fault::RoomFault;
use ent_room::State;
use ent_semantics::Failure;
use ent_waiting::Ending;
use std::alloc::Global;
use std::fmt;

/// How a script ended, in words.
#[derive(Clone, Copy)]
struct EndingWords(Ending);

impl fmt::Display for EndingWords {
    ghost output = { λ words. Some (ending_text words.0) };

    fn fmt<W: fmt::Write>(&self, f: &mut fmt::Formatter<W>) -> fmt::Result {
        match self.0 {
            Ending::Committed { epoch, number } => {
                write!(f, "committed {number} in epoch {epoch}")
            }
            Ending::RolledBack => write!(f, "rolled back"),
            Ending::Failed(Failure::Overflow) => write!(f, "failed F1"),
            Ending::Failed(Failure::TableFull) => write!(f, "failed F2"),
            Ending::GaveUp => write!(f, "gave up"),
            Ending::Withdrawn => write!(f, "withdrawn"),
        }
    }
}

/// How a ticket stands, in words.
#[derive(Clone, Copy)]
struct StateWords(State);

impl fmt::Display for StateWords {
    ghost output = { λ words. Some (state_text words.0) };

    fn fmt<W: fmt::Write>(&self, f: &mut fmt::Formatter<W>) -> fmt::Result {
        match self.0 {
            State::Waits { batches } => write!(f, "waits, after {batches} batches that count"),
            State::Lonely { demand } => {
                write!(f, "lonely: nobody who waits may offer its demand {demand}")
            }
            State::NoMeeting => write!(f, "waits, and no meeting of it was found"),
            State::Cut => write!(
                f,
                "waits, cut: a bound was reached, and there may be more meetings of it"
            ),
            State::InBatch => write!(f, "in the batch that is on"),
            State::Ended(ending) => {
                let words = EndingWords(ending);
                write!(f, "{words}")
            }
            State::Unknown => write!(f, "unknown"),
        }
    }
}

/// How a ticket stands.
pub(crate) fn state_text(alloc: Global, state: State) -> Result<Vec<u8>, RoomFault>
    ensures text { IfOk result (λ text. text.items ≡ state_text state) }
    ensures refused { IfErr result (λ fault. fault ≡ Memory) }
{
    let words = StateWords(state);
    let text = format!(in alloc; "{words}")?;
    Ok(text.into_bytes())
}
