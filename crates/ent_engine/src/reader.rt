//! An input read whole.
ghost use Rattle.std.specs.Prelude.{◌≡◌, ◌≤◌, length, IfOk, IfErr, IfSome};
ghost use Rattle.ent_value.specs.Watched.{IsUnmarked};
ghost use Rattle.ent_input.specs.declared.reading.TheConstants.{MOST_BYTES};
ghost use Rattle.ent_engine.specs.Io.{ReadingFails, IsReaderMarkedBy};

use crate::fault::RunFault;
use ent_input::{InputFault, MOST_BYTES};
use ent_stream::StreamFault;
use ent_value::{Refusal, Watched};
use std::alloc::Global;
use std::io::Read;

/// Reads to the end, in any pieces that the reader gives: an input's bytes, of which there are at most [`MOST_BYTES`].
/// The reader is handed in unmarked, as [`Watched::new`] makes it.
pub fn read_whole<R: Read>(alloc: Global, reader: &mut Watched<R>) -> Result<Vec<u8>, RunFault>
    requires unmarked { IsUnmarked reader.old }
    ensures whole { IfOk result (λ bytes. IfSome (R.remaining reader.old.inner) (λ all. bytes.items ≡ all)) }
    ensures limit { IfOk result (λ bytes. length bytes.items ≤ MOST_BYTES) }
    ensures fault { IfErr result (λ fault. ReadingFails (R.remaining reader.old.inner) fault) }
    ensures marks { IsReaderMarkedBy result reader.new }
{
    match ent_stream::read_whole(alloc, reader, MOST_BYTES) {
        Ok(bytes) => Ok(bytes),
        Err(Refusal::Memory) => Err(RunFault::Memory),
        Err(Refusal::Fault(StreamFault::TooLong)) => Err(RunFault::Input(InputFault::TooLong)),
        Err(Refusal::Fault(StreamFault::Unreadable)) => Err(RunFault::ReadFault),
    }
}
