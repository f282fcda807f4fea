//! A stream read whole.
ghost use Rattle.std.specs.Prelude.{◌≡◌, ◌≤◌, ◌<◌, length, vec_len, IfOk, IfErr, IfSome};
ghost use Rattle.ent_stream.specs.Reading.{is_unreadable};
ghost use Rattle.ent_stream.specs.declared.fault.StreamFault.TheVariants.{TooLong};
ghost use Rattle.ent_value.specs.Watched.{IsUnmarked};
ghost use Rattle.ent_value.specs.declared.refusal.Refusal.TheVariants.{Fault};

use crate::fault::StreamFault;
use ent_value::{Refusal, Watched};
use std::alloc::{AllocError, Global};
use std::io::Read;

/// How many bytes are read at once.
const CHUNK: usize = 65_536;

fn zeros(alloc: Global, len: usize) -> Result<Vec<u8>, AllocError>
    ensures { IfOk result (λ bytes. vec_len bytes ≡ len) }
{
    vec![in alloc; 0; len]
}

/// Reads to the end, in any pieces that the reader gives: all its bytes, of which there are no more than `most`. The
/// bytes are counted while they come, and none beyond `most` is kept. [`StreamFault::TooLong`] comes only where the
/// reader has more; the reader's mark is set where it failed, and nowhere else.
pub fn read_whole<R: Read>(
    alloc: Global,
    reader: &mut Watched<R>,
    most: usize,
) -> Result<Vec<u8>, Refusal<StreamFault>>
    requires unmarked { IsUnmarked reader.old }
    ensures whole { IfOk result (λ bytes. IfSome (R.remaining reader.old.inner) (λ all. bytes.items ≡ all)) }
    ensures bound { IfOk result (λ bytes. length bytes.items ≤ most) }
    ensures too_long { IfErr result (λ refusal. refusal ≡ Fault TooLong
        → IfSome (R.remaining reader.old.inner) (λ all. most < length all)) }
    ensures marks { reader.new.failed ≡ is_unreadable result }
{
    let mut chunk = zeros(alloc, CHUNK)?;
    read_pieces(alloc, reader, most, chunk.as_mut_slice())
}

/// Reads to the end through a buffer.
fn read_pieces<R: Read>(
    alloc: Global,
    reader: &mut Watched<R>,
    most: usize,
    buffer: &mut [u8],
) -> Result<Vec<u8>, Refusal<StreamFault>>
    requires room { 0 < length buffer.old }
    requires unmarked { IsUnmarked reader.old }
    ensures whole { IfOk result (λ bytes. IfSome (R.remaining reader.old.inner) (λ all. bytes.items ≡ all)) }
    ensures bound { IfOk result (λ bytes. length bytes.items ≤ most) }
    ensures too_long { IfErr result (λ refusal. refusal ≡ Fault TooLong
        → IfSome (R.remaining reader.old.inner) (λ all. most < length all)) }
    ensures marks { reader.new.failed ≡ is_unreadable result }
{
    let mut bytes = Vec::new(alloc);
    'reading: loop {
        match reader.read(buffer) {
            Ok(0) => return Ok(bytes),
            Ok(count) => {
                if count > most - bytes.len() {
                    return Err(Refusal::Fault(StreamFault::TooLong));
                }
                bytes.extend_from_slice(buffer.split_at(count).0)?;
            }
            Err(_) => return Err(Refusal::Fault(StreamFault::Unreadable)),
        }
    }
}
